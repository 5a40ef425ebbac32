//! The command `replay`: the transcript of a list of events, with engines in memory.
ghost use Rattle.std.specs.Prelude.{◌≡◌, ◌∷◌, ◌<◌, ◌≤◌, [], false, List, Result, map, IfOk, IfErr};
ghost use Rattle.dp_outside.specs.Changes.{change};
ghost use Rattle.dp_outside.specs.Files.{Fetches};
ghost use Rattle.dp_outside.specs.Reports.{grown};
ghost use Rattle.dp_bundle.specs.Bundles.{AreForBundle};
ghost use Rattle.dp_bundle.specs.declared.errors.BundleError.{BundleError as Unmade};
ghost use Rattle.dp_events.specs.declared.event.Event.{Event};
ghost use Rattle.dp_events.specs.Lists.{IsFirstBad};
ghost use Rattle.dp_program.specs.Programs.{FilesMake};
ghost use Rattle.dp_tree.specs.declared.bundle.Bundle.{Bundle as Made};
ghost use Rattle.dp_tree.specs.FileNames.{AreFileNames};
ghost use Rattle.dp_words.specs.Words.{AreFileWords};
ghost use Rattle.dp_words.specs.Commands.{invocation_seen};
ghost use Rattle.dp_top.specs.Lines.{lines_limit};
ghost use Rattle.dp_top.specs.Replay.{IsListFile};
ghost use Rattle.dp_top.specs.Runs.{AreFetched};
ghost use Rattle.dp_top.specs.inner.BadLines.{AreNone, UnreadSo, is_bad_line};
ghost use Rattle.dp_top.specs.inner.Completeness.{IsComplete};
ghost use Rattle.dp_top.specs.inner.EventLists.{CompleteFetched, EndsFetched, EndsOver, EndsReplay, IsWholeList};
ghost use Rattle.dp_top.specs.Statuses.{exit_limit};

use crate::engines;
use crate::failures::{Failure, Refused};
use crate::lines::{LINES_LIMIT, unfetched};
use crate::run::refusal_of_program;
use dp_bytes::{Bytes, Items};
use dp_engine::Steps;
use dp_events::{Events, ListError};
use dp_outside::{Bytes1, Shelf, Sink};
use dp_program::{fetch_files, make_program};
use dp_tree::Bundle;
use dp_words::Replay;
use dp_world::ReplayError;
use std::alloc::Global;
use std::marker::Brand;
use std::sync::ledger::{Blank, Ledger};

/// What the file of this name has.
fn fetch_list<'a, H: Shelf>(
    alloc: Global,
    events: &'a str,
    shelf: &mut H,
) -> Result<Bytes1, Refused<'a>>
    ensures held { IfOk result (Fetches (H.files shelf.old) events.now lines_limit) }
    ensures unlisted { IfErr result (λ why. UnreadSo IsFirstBad why.failure why.name.now events.now (H.files shelf.old)
        (H.faults shelf.old) (H.faults shelf.new)) }
    ensures unread { IfErr result (λ why. is_bad_line why.failure ≡ false) }
    ensures fetched { H.fetched shelf.new ≡ grown (H.fetched shelf.old) (events.now ∷ []) }
    ensures files { H.files shelf.new ≡ H.files shelf.old }
    ensures later { H.faults shelf.old ≤ H.faults shelf.new }
{
    match shelf.fetch(alloc, events, LINES_LIMIT) {
        Ok(content) => Ok(content),
        Err(why) => Err(unfetched(events, why)),
    }
}

/// The list of events that bytes are.
fn list_in<'a>(alloc: Global, bytes: &[u8]) -> Result<Events, Refused<'a>>
    ensures list { IfOk result (IsWholeList bytes.now) }
    ensures bad { IfErr result (λ why. AreNone IsFirstBad why.failure why.name.now bytes.now) }
{
    if bytes.len() > LINES_LIMIT {
        return Err(Refused::unnamed(Failure::Script { line: 0 }));
    }
    match Events::read(alloc, bytes) {
        Ok(events) => Ok(events),
        Err(ListError::BadLine { line }) => Err(Refused::unnamed(Failure::Script {
            line: line as u64,
        })),
        Err(ListError::Memory) => Err(Refused::unnamed(Failure::Memory)),
    }
}

/// Replays a list of events over a program, with a ledger for the steps of its engines.
fn replay_over<'a, K: Sink, L: Ledger>(
    alloc: Global,
    events: &Events,
    bundle: &Bundle,
    bound: u64,
    out: &mut K,
    blank: Blank,
) -> Result<u8, Refused<'a>>
    requires name { blank.name ≡ L.name }
    requires parts { blank.parts ≡ L.parts }
    requires some { 0 < blank.parts }
    requires names { AreFileNames (map (λ file. file.name) bundle.now.files) }
    ensures ends { EndsOver result events.now bundle.now bound (change K.taken K.faults out.old out.new) }
    ensures out_later { K.faults out.old ≤ K.faults out.new }
{
    let mut steps = Steps::<L>::new(blank);
    match engines::replay(alloc, events, bundle, bound, out, &mut steps) {
        Ok(()) => Ok(0),
        Err(ReplayError::OutFault) => Err(Refused::unnamed(Failure::Output)),
        Err(ReplayError::Memory) => Err(Refused::unnamed(Failure::Memory)),
    }
}

/// Replays what was fetched: the list is read first, then the files.
fn replay_fetched<'a, K: Sink>(
    alloc: Global,
    request: Replay<'a>,
    content: &[u8],
    fetched: Items<(Bytes, Bytes)>,
    out: &mut K,
) -> Result<u8, Refused<'a>>
    requires { AreForBundle fetched }
    ensures ends { EndsFetched result request.entry.events.now content.now fetched
        (invocation_seen request.entry.program)
        (change K.taken K.faults out.old out.new) }
    ensures held { CompleteFetched result request.entry.events.now content.now fetched
        (invocation_seen request.entry.program) }
    ensures out_later { K.faults out.old ≤ K.faults out.new }
{
    let events = match list_in(alloc, content) {
        Ok(events) => events,
        Err(why) => return Err(why),
    };
    match make_program(alloc, fetched) {
        Ok(bundle) => {
            // Nobody asks for the steps.
            let blank = Blank::new(1);
            let bound = request.program.bound;
            replay_over::<K, Brand>(alloc, &events, &bundle, bound, out, blank)
        }
        Err(why) => Err(refusal_of_program(request.program, why)),
    }
}

/// Writes the transcript of a list of events on `out`, with engines in memory that run the program.
///
/// The list is fetched first, then the files of the program, in order; then the list is read, then the files.
pub(crate) fn replay<'a, H: Shelf, K: Sink>(
    alloc: Global,
    request: Replay<'a>,
    shelf: &mut H,
    out: &mut K,
) -> Result<u8, Refused<'a>>
    requires { AreFileWords (invocation_seen request.program).names }
    ensures ends { EndsReplay result request.entry.events.now (invocation_seen request.entry.program)
        (H.files shelf.old)
        (H.faults shelf.old) (H.faults shelf.new) (change K.taken K.faults out.old out.new) }
    ensures status { IfOk result (λ status. status ≤ exit_limit) }
    // Files that make a program are no bad source, and those that make none are one, unless the shelf failed.
    ensures held { (asked : Result Made Unmade)
        → FilesMake (H.files shelf.old) (invocation_seen request.entry.program).names asked
        → (list : List Event) → IsListFile (H.files shelf.old) request.entry.events.now list
        → IsComplete asked result (H.faults shelf.old) (H.faults shelf.new) }
    ensures fetched { AreFetched (request.entry.events.now ∷ (invocation_seen request.entry.program).names)
        (H.fetched shelf.old) (H.fetched shelf.new) }
    ensures files { H.files shelf.new ≡ H.files shelf.old }
    ensures shelf_later { H.faults shelf.old ≤ H.faults shelf.new }
    ensures out_later { K.faults out.old ≤ K.faults out.new }
{
    let content = match fetch_list(alloc, request.events, shelf) {
        Ok(content) => content,
        Err(why) => return Err(why),
    };
    match fetch_files(alloc, request.program.files, shelf) {
        Ok(fetched) => replay_fetched(alloc, request, content.as_slice(), fetched, out),
        Err(why) => Err(refusal_of_program(request.program, why)),
    }
}
