//! What came of a session, in words.

use crate::objects::Plan;
use crate::served::Served;
use dp_registry::{AdmitReply, Entry};
use dp_rows::{Memory, put_bytes};
use std::alloc::Global;

/// Puts how many bytes a link took, where they are a front of what was sent to it, and else which.
fn put_taken(text: &mut String, name: &str, taken: &[u8], sent: &[u8]) -> Result<(), Memory> {
    if sent.starts_with(taken) {
        let count = taken.len();
        return writeln!(text, "{name} {count}");
    }
    write!(text, "{name} other ")?;
    put_bytes(text, taken)?;
    text.push('\n')
}

/// Puts an entry of the journal.
fn put_entry(text: &mut String, entry: &Entry) -> Result<(), Memory> {
    match entry {
        Entry::Register { reply, .. } => writeln!(text, "register {reply}"),
        Entry::Stop { reply, .. } => writeln!(text, "stop {reply}"),
        Entry::Admit { reply, .. } => put_reply(text, reply),
        Entry::Dismiss { session } => writeln!(text, "dismiss {session}"),
    }
}

/// Puts what an engine was answered.
fn put_reply(text: &mut String, reply: &AdmitReply) -> Result<(), Memory> {
    match reply {
        AdmitReply::Given { session, .. } => writeln!(text, "admit {session}"),
        AdmitReply::Unknown => text.push_str("admit unknown\n"),
        AdmitReply::Busy(session) => writeln!(text, "admit busy {session}"),
    }
}

/// How a service ended, how much was put on each link, and the journal.
pub(crate) fn words_of(alloc: Global, plan: &Plan<'_>, served: &Served) -> Result<String, Memory> {
    let mut text = String::new(alloc);
    writeln!(text, "{:?}", served.end)?;
    put_taken(&mut text, "engine", served.engine.taken(), plan.ide)?;
    match &served.ide {
        Some(ide) => put_taken(&mut text, "ide", ide.taken(), plan.engine)?,
        None => text.push_str("no ide\n")?,
    }
    for entry in served.registry.journal() {
        put_entry(&mut text, entry)?;
    }
    Ok(text)
}
