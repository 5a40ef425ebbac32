//! What came of a session, in words.

use dp_async::{AsyncServed, ServeEnd};
use dp_rows::{Memory, put_bytes};
use dp_state::Outcome;
use std::alloc::Global;

/// Why a session ended.
fn end_word(end: ServeEnd) -> &'static str {
    match end {
        ServeEnd::Stopped => "stopped",
        ServeEnd::Detached => "detached",
        ServeEnd::LinkEnd => "link ended",
        ServeEnd::ReadFault => "read fault",
        ServeEnd::WriteFault => "write fault",
        ServeEnd::BadCommandFrame { offset: _ } => "bad command",
        ServeEnd::OutFault => "out fault",
        ServeEnd::ByteLimit => "byte limit",
        ServeEnd::Memory => "memory",
    }
}

/// Puts how a program ended.
fn put_outcome(text: &mut String, outcome: Option<Outcome>) -> Result<(), Memory> {
    match outcome {
        None => text.push_str("unknown")?,
        Some(Outcome::Done) => text.push_str("done")?,
        Some(Outcome::Exit(status)) => write!(text, "exit {status}")?,
        Some(Outcome::Fatal { kind, file, line }) => {
            write!(text, "fatal {kind:?} in {file} on line {line}")?;
        }
        Some(Outcome::Bound) => text.push_str("bound")?,
    }
    Ok(())
}

/// How a session ended, how its program did, how often its input was looked at, and what it heard at which moments.
pub(crate) fn reported(alloc: Global, done: &AsyncServed, looks: u64) -> Result<String, Memory> {
    let mut text = String::new(alloc);
    let end = end_word(done.served.end);
    write!(text, "{end}, ")?;
    put_outcome(&mut text, done.served.outcome)?;
    writeln!(text, ", looks {looks}")?;
    for arrival in done.log.as_slice() {
        let moment = arrival.moment;
        write!(text, "{moment} ")?;
        put_bytes(&mut text, arrival.bytes.as_slice())?;
        text.push('\n')?;
    }
    Ok(text)
}
