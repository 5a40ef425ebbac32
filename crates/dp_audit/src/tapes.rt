//! A session is served, and its record is written.
ghost use Rattle.std.specs.Prelude.{◌≡◌, ◌<◌, ◌≤◌, length, map};
ghost use Rattle.dp_audit.specs.Sessions.{session};
ghost use Rattle.dp_engine.specs.Answers.{answer};
ghost use Rattle.dp_engine.specs.Session.{opening};
ghost use Rattle.dp_outside.specs.Changes.{change};
ghost use Rattle.dp_outside.specs.Names.{key_limit};
ghost use Rattle.dp_records.specs.Tapes.{Tapes};
ghost use Rattle.dp_tree.specs.FileNames.{AreFileNames};

use crate::sessions::Debugged;
use dp_engine::{Session, Steps};
use dp_outside::{Sink, Source};
use dp_records::TapeEnd;
use dp_tree::Bundle;
use std::alloc::Global;
use std::marker::Brand;
use std::sync::ledger::{Blank, Ledger};

/// The same, with a ledger for the session's steps.
fn tape_with<S: Source, K: Sink, L: Ledger>(
    alloc: Global,
    bundle: &Bundle,
    key: &[u8],
    bound: u64,
    source: &mut S,
    sink: &mut K,
    blank: Blank,
) -> TapeEnd
    requires name { blank.name ≡ L.name }
    requires parts { blank.parts ≡ L.parts }
    requires some { 0 < blank.parts }
    requires key { length key.now ≤ key_limit }
    requires names { AreFileNames (map (λ f. f.name) bundle.now.files) }
    ensures tapes { Tapes answer (opening bundle.now bound) (session bundle.now bound key.now) result
        (change S.left S.faults source.old source.new) (change K.taken K.faults sink.old sink.new) }
    ensures source_later { S.faults source.old ≤ S.faults source.new }
    ensures sink_later { K.faults sink.old ≤ K.faults sink.new }
{
    match Session::begin(alloc, bundle, key, bound) {
        Ok((session, init)) => {
            let mut steps = Steps::<L>::new(blank);
            let session = Debugged {
                session,
                steps: &mut steps,
            };
            dp_records::tape(alloc, session, init.as_slice(), source, sink)
        }
        Err(_) => TapeEnd::Memory,
    }
}

/// Serves a session with this key, over a program that may have so many moments, and writes the record of it: a line
/// for each piece that was read, then lines for what was sent in answer to it and for what went to the program's own
/// output; and once the session is over its rest, and the last line. Where the source or the sink fails, or too much
/// was read, no last line is written. It waits in the calls of the source and the sink alone.
///
/// The key has at most 128 bytes, and the files of the program have names of files.
pub fn tape<S: Source, K: Sink>(
    alloc: Global,
    bundle: &Bundle,
    key: &[u8],
    bound: u64,
    source: &mut S,
    sink: &mut K,
) -> TapeEnd
    requires key { length key.now ≤ key_limit }
    requires names { AreFileNames (map (λ f. f.name) bundle.now.files) }
    ensures tapes { Tapes answer (opening bundle.now bound) (session bundle.now bound key.now) result
        (change S.left S.faults source.old source.new) (change K.taken K.faults sink.old sink.new) }
    ensures source_later { S.faults source.old ≤ S.faults source.new }
    ensures sink_later { K.faults sink.old ≤ K.faults sink.new }
{
    // Nobody asks for the steps.
    let blank = Blank::new(1);
    tape_with::<S, K, Brand>(alloc, bundle, key, bound, source, sink, blank)
}
