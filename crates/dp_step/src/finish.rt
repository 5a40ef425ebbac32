//! The end of the program of a machine, which nothing stops before.

ghost use Rattle.std.specs.Prelude.{◌≡◌, ◌-◌};

use crate::deep_turns::is_run_whole;
use crate::machine::{Came, Machine, Progress};
use crate::small::put_hand;
use crate::statements::is_next;
use crate::steps::Steps;
use dp_actions::{Halt, Signal};
use dp_analysis::DeepNames;
use dp_bytes::Memory;
use dp_meaning::Whole;
use dp_small_steps::{DoTurns, EachTurns, ForSignal, Given, Hand, Head, Turns, Waiting, Work};
use dp_state::Outcome;
use dp_value::Value;
use std::sync::ledger::Ledger;
use std::{mem, slice};

impl<'p> Machine<'p> {
    ghost use Rattle.std.specs.Prelude.{◌≡◌, ◌+◌, ℕ, List, length, true, IfOk, OnErr, OnOk};
    ghost use Rattle.dp_analysis.specs.Still.{is_named};
    ghost use Rattle.dp_tree.specs.declared.bundle.Bundle.{Bundle as SomeBundle};
    ghost use Rattle.dp_meaning.specs.declared.writes.NumberedWrite.{NumberedWrite};
    ghost use Rattle.dp_meaning.specs.Trace.{outcome, program_trace};
    ghost use Rattle.dp_state.specs.declared.moments.Outcome.{Outcome as SomeOutcome};
    ghost use Rattle.dp_step.specs.Stands.{HasEnded, HasFailed, StandsFor, rest_of};
    ghost use Rattle.dp_small_steps.specs.declared.work.Hand.TheVariants as any_hand;
    ghost use Rattle.dp_actions.specs.declared.signal.Signal.{Signal as AnySignal};
    ghost use Rattle.dp_actions.specs.Setting.{Part};
    ghost use Rattle.dp_state.specs.declared.state.State.{State as AnyState};
    ghost use Rattle.dp_step.specs.inner.Leaps.{HasRun, Leaps, RunsOut, part_with, whole_of};
    ghost use Rattle.dp_step.specs.inner.Moves.{Moves, rest_with};
    ghost use Rattle.dp_step.specs.inner.Shallow.{runs_whole};

    /// Goes on to the end of the program, and answers its outcome; each moment that is left takes one step. Nothing
    /// stops it, so a statement, or the turns that are left of a loop, go as fast as the evaluator, where the functions
    /// that they may call do not call deep; all else goes by small steps, whose pending work lies on the heap. Once the
    /// program has ended it answers the same end; once memory has run out it answers so for good.
    pub fn run_out<L: Ledger>(&mut self, steps: &mut Steps<L>) -> Result<Outcome, Memory>
        ensures end { (bundle : SomeBundle) (bound : ℕ) (writes : List NumberedWrite) (n : ℕ)
            → StandsFor bundle bound writes n self.old
            → IfOk result (λ end. (end ≡ outcome bundle bound writes)
            × (self.new.state ≡ (program_trace bundle bound writes).state)) }
        ensures counted { (bundle : SomeBundle) (bound : ℕ) (writes : List NumberedWrite) (n : ℕ)
            → StandsFor bundle bound writes n self.old
            → IfOk result (λ end. steps.new + n ≡ steps.old + length (program_trace bundle bound writes).moments) }
        ensures ends { IfOk result (λ end. HasEnded end self.new) }
        ensures stays { (o : SomeOutcome) → HasEnded o self.old
            → IfOk result (λ end. (end ≡ o) × (self.new.state ≡ self.old.state)) }
        ensures leaves { OnErr result (HasFailed self.new) }
        ensures fails { HasFailed self.old → OnOk result ⊥ }
    {
        if self.has_failed() {
            Err(Memory)
        } else {
            let before = self.state.moments;
            match self.end() {
                Ok(outcome) => {
                    steps.tick_all(risen(before, self.state.moments));
                    Ok(outcome)
                }
                Err(_) => Err(self.fail()),
            }
        }
    }

    /// The same without the steps, where memory has not run out.
    fn end(&mut self) -> Result<Outcome, Memory>
        ensures runs { IfOk result (λ end. RunsOut self.old (rest_of self.old self.old.state) end self.new) }
        ensures ends { IfOk result (λ end. HasEnded end self.new) }
    {
        let deep = DeepNames::of(self.alloc, self.bundle)?;
        self.finish(&deep)
    }

    /// Leaps until the program has ended.
    fn finish(&mut self, deep: &DeepNames<'p>) -> Result<Outcome, Memory>
        ensures runs { IfOk result (λ end. RunsOut self.old (rest_of self.old self.old.state) end self.new) }
        ensures ends { IfOk result (λ end. HasEnded end self.new) }
    {
        for _ in 0..u64::MAX {
            match self.leap(deep)? {
                None => {}
                Some(outcome) => {
                    put_hand(&mut self.hand, Hand::Over(outcome));
                    return Ok(outcome);
                }
            }
        }
        // No run has so many small steps.
        Err(Memory)
    }

    /// A statement or the turns of a loop that is in hand, where no call in it is deep, and else a small step.
    fn leap(&mut self, deep: &DeepNames<'p>) -> Result<Option<Outcome>, Memory>
        ensures { IfOk result (λ end. Leaps self.old (rest_of self.old self.old.state) end self.new) }
    {
        if is_run_whole(deep, &self.hand) {
            self.run_hand(deep)
        } else {
            self.onward()
        }
    }

    /// What is in hand, which comes to no deep call.
    fn run_hand(&mut self, _deep: &DeepNames<'p>) -> Result<Option<Outcome>, Memory>
        requires { runs_whole (is_named _deep.now) self.old.hand ≡ true }
        ensures { IfOk result (λ end. Leaps self.old (rest_of self.old self.old.state) end self.new) }
    {
        match mem::replace(&mut self.hand, Hand::Failed) {
            Hand::Run(statement) => {
                let done = self.whole().statement(statement, &mut self.state);
                self.gave(done)
            }
            Hand::Turn(turns, left) => self.turns(turns, left),
            Hand::DoTurn(turns, left) => self.do_turns(turns, left),
            Hand::EachTurn(turns, subject, at) => self.entries(turns, subject, at),
            hand => self.other(hand),
        }
    }

    /// Turns of a `while` or a `for`.
    fn turns(&mut self, turns: Turns<'p>, left: u64) -> Result<Option<Outcome>, Memory>
        ensures { IfOk result (λ end. Leaps self.old
            (rest_with self.old (any_hand.Turn turns.entry left) self.old.state) end self.new) }
    {
        let body = turns.body.as_ref();
        match turns.head {
            Head::While(test) => {
                let tests = slice::from_ref(test);
                let done = self
                    .whole()
                    .turns(left, turns.line, tests, &[], body, &mut self.state);
                self.gave(done)
            }
            Head::For(tests, after) => {
                let tests = tests.as_slice();
                let after = after.as_slice();
                let done = self
                    .whole()
                    .turns(left, turns.line, tests, after, body, &mut self.state);
                self.gave(done)
            }
        }
    }

    /// Turns of a `do`.
    fn do_turns(&mut self, turns: DoTurns<'p>, left: u64) -> Result<Option<Outcome>, Memory>
        ensures { IfOk result (λ end. Leaps self.old
            (rest_with self.old (any_hand.DoTurn turns.entry left) self.old.state) end self.new) }
    {
        let body = turns.body.as_ref();
        let done = self
            .whole()
            .do_turns(left, turns.line, turns.test, body, &mut self.state);
        self.gave(done)
    }

    /// Turns of a `foreach`.
    fn entries(
        &mut self,
        turns: EachTurns<'p>,
        subject: Value,
        at: usize,
    ) -> Result<Option<Outcome>, Memory>
        ensures { IfOk result (λ end. Leaps self.old
            (rest_with self.old (any_hand.EachTurn turns.entry subject at) self.old.state) end self.new) }
    {
        let body = turns.body.as_ref();
        let done = self.whole().entries(
            at,
            turns.line,
            turns.binding,
            &subject,
            body,
            &mut self.state,
        );
        drop(subject);
        self.gave(done)
    }

    /// What parts of the program are run by.
    pub(crate) fn whole(&self) -> Whole<'p>
        ensures { result ≡ whole_of self.now }
    {
        Whole {
            bundle: self.bundle,
            alloc: self.alloc,
            bound: self.bound,
            depth: self.depth,
        }
    }

    /// What was run whole gave this, which is given to what waits for it.
    fn gave(&mut self, done: Result<Signal, Halt>) -> Result<Option<Outcome>, Memory>
        ensures { (part : Part AnySignal) (s : AnyState) → HasRun self.old part done s
            → IfOk result (λ end. Leaps self.old (part_with self.old part s) end self.new) }
    {
        match done {
            Ok(signal) => {
                let given = Given::Signal(signal);
                put_hand(&mut self.hand, Hand::Give(given));
                Ok(None)
            }
            Err(Halt::Finished(outcome)) => Ok(Some(outcome)),
            Err(other) => {
                drop(other);
                Err(Memory)
            }
        }
    }

    /// A small step with what was in hand.
    fn other(&mut self, hand: Hand<'p>) -> Result<Option<Outcome>, Memory>
        ensures { IfOk result (λ end. Leaps self.old (rest_with self.old hand.entry self.old.state) end self.new) }
    {
        put_hand(&mut self.hand, hand);
        self.onward()
    }

    /// A small step. The turns that are left of a loop whose body is over come into hand, but for an entry whose moment
    /// has come: that is bound where it waits.
    fn go_to_turns(&mut self) -> Came
        ensures { Moves self.old (rest_of self.old self.old.state) result self.new }
    {
        if is_next(&self.hand) && !has_due_entry(&self.pending) {
            self.small()
        } else {
            self.go()
        }
    }

    /// A small step, and the moment to which it comes.
    fn onward(&mut self) -> Result<Option<Outcome>, Memory>
        ensures { IfOk result (λ end. Leaps self.old (rest_of self.old self.old.state) end self.new) }
    {
        match self.go_to_turns() {
            Came::On => Ok(None),
            Came::Moment(kind, line) => match self.come(kind, line)? {
                Progress::At(moment) => {
                    drop(moment);
                    Ok(None)
                }
                Progress::Ended(outcome) => Ok(Some(outcome)),
            },
            Came::Done => Ok(Some(Outcome::Done)),
            Came::Over(outcome) => Ok(Some(outcome)),
            Came::Failed => Err(Memory),
        }
    }
}

/// Whether the innermost item is a `foreach` whose next entry is due.
fn has_due_entry(pending: &Vec<Waiting<'_>>) -> bool {
    match pending.last() {
        Some(Waiting::Part(Work::ForSignal(ForSignal::EachBody(_, _, _, due)))) => *due,
        _ => false,
    }
}

/// By how many a number has risen.
pub(crate) fn risen(before: u64, after: u64) -> u64
    ensures { result ≡ after - before }
{
    after.saturating_sub(before)
}
