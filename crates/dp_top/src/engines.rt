//! The engines of a program, for a replay.
ghost use Rattle.std.specs.Prelude.{◌≡◌, ◌≤◌, map, IfOk};
ghost use Rattle.dp_outside.specs.Changes.{change};
ghost use Rattle.dp_top.specs.Engines.{engines_of};
ghost use Rattle.dp_tree.specs.FileNames.{AreFileNames};
ghost use Rattle.dp_world.specs.Replays.{Replays};
ghost use Rattle.dp_world.specs.Tallies.{in_words, tally_of};

use dp_bytes::{Bytes, Memory};
use dp_engine::{Answer, Session, SessionEnd, Steps};
use dp_events::Events;
use dp_outside::Sink;
use dp_state::Outcome;
use dp_tree::Bundle;
use dp_world::{Engines, ReplayError, Tally};
use std::alloc::Global;
use std::marker::{Model, PhantomData};
use std::sync::ledger::Ledger;

/// The engines of a program that may have so many moments. Contracts see the program and the bound.
#[derive(Drop)]
struct Debugged<'a, L: Ledger> {
    bundle: &'a Bundle,
    bound: u64,
    /// By which they count their steps.
    ledger: PhantomData<L>,
}

impl<'a, L: Ledger> Model for Debugged<'a, L> {
    ghost use Rattle.std.specs.Coded.{codes};
    ghost use Rattle.std.specs.Prelude.{ℕ, map};
    ghost use Rattle.dp_tree.specs.FileNames.{AreFileNames};
    ghost use Rattle.dp_tree.specs.contracts.bundle.Bundle as bundle_type;
    ghost use Rattle.dp_tree.specs.declared.bundle.Bundle.{Bundle as Program};

    ghost Value = { Program × ℕ };

    ghost coded = { Prim.hlevel (codes, bundle_type.the_row.coded) };

    ghost view = { λ d. (d.bundle.now, d.bound) };

    ghost invariant = { λ d. AreFileNames (map (λ f. f.name) d.bundle.now.files) };
}

impl<'a, L: Ledger> Engines for Debugged<'a, L> {
    ghost use Rattle.std.specs.Prelude.{◌≡◌, IfOk, IfSome, false};
    ghost use Rattle.dp_engine.specs.Served.{ending_after, rest_after};
    ghost use Rattle.dp_top.specs.Engines.{engines_of};

    type Session = Session<'a>;

    type End = SessionEnd;

    type Steps = Steps<L>;

    ghost known = { λ d. engines_of d.0 d.1 };

    ghost failed = { λ s. s.failed };

    /// Its session, and the text of its first packet.
    fn begin(&self, alloc: Global, key: &[u8]) -> Result<(Session<'a>, Bytes), Memory> {
        Session::begin(alloc, self.bundle, key, self.bound)
    }

    /// The session has an allocator of its own.
    fn answer(
        &self,
        session: &mut Session<'a>,
        _alloc: Global,
        line: &[u8],
        steps: &mut Steps<L>,
    ) -> Result<Answer, Memory> {
        session.answer(line, steps)
    }

    /// The program runs on to its end, unless a command has killed it. The session has an allocator of its own.
    fn finish(
        &self,
        session: Session<'a>,
        ended: Option<SessionEnd>,
        _alloc: Global,
        steps: &mut Steps<L>,
    ) -> Result<(Bytes, Option<Outcome>), Memory>
        ensures rest { IfOk result (λ end. end.0 ≡ rest_after ended session.entry) }
        ensures outcome { IfOk result (λ end. end.1 ≡ ending_after ended session.entry) }
        ensures stays { IfOk result (λ end. IfSome end.1 (λ outcome. session.entry.failed ≡ false)) }
    {
        session.finish_after(ended, steps)
    }
}

/// Replays a list of events with engines of the program, and writes its transcript.
///
/// The files of the program have names of files.
pub(crate) fn replay<K: Sink, L: Ledger>(
    alloc: Global,
    events: &Events,
    bundle: &Bundle,
    bound: u64,
    out: &mut K,
    steps: &mut Steps<L>,
) -> Result<(), ReplayError>
    requires { AreFileNames (map (λ f. f.name) bundle.now.files) }
    ensures replays { Replays result (engines_of bundle.now bound) events.now
        (change K.taken K.faults out.old out.new) }
    ensures later { K.faults out.old ≤ K.faults out.new }
{
    let engines: Debugged<L> = Debugged {
        bundle,
        bound,
        ledger: PhantomData,
    };
    dp_world::replay(alloc, events, &engines, out, steps)
}

/// The numbers of what a replay of these events with engines of the program comes to.
///
/// The files of the program have names of files.
pub(crate) fn tally<L: Ledger>(
    alloc: Global,
    events: &Events,
    bundle: &Bundle,
    bound: u64,
    steps: &mut Steps<L>,
) -> Result<Tally, Memory>
    requires { AreFileNames (map (λ f. f.name) bundle.now.files) }
    ensures { IfOk result (λ tally. tally ≡ in_words (tally_of (engines_of bundle.now bound) events.now)) }
{
    let engines: Debugged<L> = Debugged {
        bundle,
        bound,
        ledger: PhantomData,
    };
    dp_world::tally(alloc, events, &engines, steps)
}
