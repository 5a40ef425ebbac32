//! Serves the session of a row, and tells what differs.
ghost use Rattle.std.specs.Prelude.{◌≡◌, ◌<◌, ◌-◌, ◌^◌, map};
ghost use Rattle.dp_words.specs.Words.{IsSession};
ghost use Rattle.dp_words.specs.Commands.{invocation_seen};

use crate::objects::{polled, shelf, words};
use crate::reports::reported;
use dp_async::{Steps, serve_polled};
use dp_outside::ByteSink;
use dp_program::fetch_program;
use dp_rows::{Differences, Memory, Row};
use dp_tree::Bundle;
use dp_words::{Command, Talk, read_words};
use std::alloc::Global;
use std::marker::Brand;
use std::sync::ledger::{Blank, Ledger};

/// How many bytes a sink takes.
const ROOM: usize = 1 << 20;

/// Tells where the report of a session, what was put on the link or the program's own output differs from what the row
/// wants.
fn differences_from(
    alloc: Global,
    row: &Row<'_>,
    report: &str,
    sent: &[u8],
    own: &[u8],
) -> Result<Differences, Memory> {
    let mut differences = Differences::of_given(alloc, row, report)?;
    let wanted = row.bytes(alloc, b"sent")?;
    differences.compare("sent", wanted.as_slice(), sent)?;
    let wanted = row.bytes(alloc, b"own")?;
    differences.compare("own", wanted.as_slice(), own)?;
    Ok(differences)
}

/// Serves the session over the program, and tells what differs from what the row wants.
fn differences_over<L: Ledger>(
    alloc: Global,
    row: &Row<'_>,
    talk: Talk<'_>,
    bundle: &Bundle,
    blank: Blank,
) -> Result<Differences, Memory>
    requires name { blank.name ≡ L.name }
    requires parts { blank.parts ≡ L.parts }
    requires some { 0 < blank.parts }
    requires bound { talk.program.bound < 2 ^ 64 - 1 }
    requires session { IsSession talk.key.now (invocation_seen talk.program) }
    requires named { map (λ file. file.name) bundle.now.files ≡ (invocation_seen talk.program).names }
{
    let mut steps = Steps::<L>::new(blank);
    let mut polled = polled(alloc, row)?;
    let mut sink = ByteSink::new(alloc, ROOM, Vec::new(alloc))?;
    let mut out = ByteSink::new(alloc, ROOM, Vec::new(alloc))?;
    let done = serve_polled(
        alloc,
        bundle,
        talk.key.as_bytes(),
        talk.program.bound,
        &mut polled,
        &mut sink,
        &mut out,
        &mut steps,
    );
    let found = reported(alloc, &done, polled.looks())?;
    differences_from(alloc, row, found.as_str(), sink.taken(), out.taken())
}

/// Serves the session of a row, and tells what differs from what it wants.
pub(crate) fn differences_of(alloc: Global, row: &Row<'_>) -> Result<Differences, Memory> {
    let words = words(alloc, row)?;
    let Some(Command::Talk(talk)) = read_words(alloc, words.as_slice())? else {
        return Differences::of_mistake(alloc, "no session", row.title);
    };
    if talk.program.bound == u64::MAX {
        return Differences::of_mistake(alloc, "no bound", row.title);
    }
    let mut shelf = shelf(alloc, row)?;
    match fetch_program(alloc, talk.program.files, &mut shelf) {
        Ok(bundle) => differences_over::<Brand>(alloc, row, talk, &bundle, Blank::new(1)),
        Err(_) => Differences::of_mistake(alloc, "no program", row.title),
    }
}
