//! A program that stops at each of its moments.

ghost use Rattle.std.specs.Prelude.{◌≡◌, ◌+◌};
ghost use Rattle.dp_step.specs.Stands.{steps_of};
ghost use Rattle.dp_step.specs.inner.Moves.{came_of};

use crate::small::{file_hand, put_hand};
use crate::steps::Steps;
use dp_actions::Halt;
use dp_bytes::Memory;
use dp_meaning::moment_of;
use dp_small_steps::{Hand, Waiting};
use dp_state::{FRAME_LIMIT, Moment, MomentKind, Outcome, State};
use dp_tree::Bundle;
use std::alloc::Global;
use std::sync::ledger::Ledger;

/// A program that has come to a moment, or is before its first one: its state, what is in hand, and the pending work,
/// of which the last item is the innermost. `depth` is how many frames more can be on the stack.
#[derive(Drop)]
pub struct Machine<'p> {
    pub(crate) bundle: &'p Bundle,
    pub(crate) alloc: Global,
    pub(crate) bound: u64,
    pub(crate) depth: u64,
    pub(crate) hand: Hand<'p>,
    pub(crate) pending: Vec<Waiting<'p>>,
    pub(crate) state: State,
}

/// What a step comes to.
#[derive(Debug, Drop)]
pub enum Progress {
    /// The next moment.
    At(Moment),
    /// The end of the program.
    Ended(Outcome),
}

/// What a small step comes to.
#[derive(Clone, Copy)]
pub(crate) enum Came {
    /// Nothing yet.
    On,
    /// A moment of this kind, on this line of the top frame.
    Moment(MomentKind, u32),
    /// All that was to be done is done, and what the last part gave is in hand.
    Done,
    /// The program is over.
    Over(Outcome),
    /// Memory ran out.
    Failed,
}

/// What the small steps up to the next moment come to.
#[derive(Clone, Copy)]
pub(crate) enum Arrival {
    /// A moment of this kind, on this line of the top frame.
    Moment(MomentKind, u32),
    End(Outcome),
}

impl<'p> Machine<'p> {
    ghost use Rattle.std.specs.Prelude.{◌≡◌, ℕ, ◌+◌, List, [], IfOk, OnOk, true, false};
    ghost use Rattle.dp_tree.specs.declared.bundle.Bundle.{Bundle as SomeBundle};
    ghost use Rattle.dp_meaning.specs.declared.writes.NumberedWrite.{NumberedWrite};
    ghost use Rattle.dp_state.specs.declared.moments.Outcome.{Outcome as SomeOutcome};
    ghost use Rattle.dp_step.specs.declared.machine.Progress.TheVariants as any_progress;
    ghost use Rattle.dp_step.specs.Stands.{GoesOn, HasEnded, HasFailed, Leaves, StandsFor, rest_of, steps_of};
    ghost use Rattle.dp_step.specs.inner.Moves.{Arrives, Comes};

    /// A program before its first moment, whose machine has not failed. A run has at most `bound` moments.
    pub fn start(alloc: Global, bundle: &'p Bundle, bound: u64) -> Result<Machine<'p>, Memory>
        ensures starts { IfOk result (λ machine. StandsFor bundle.now bound [] 0 machine) }
        ensures whole { IfOk result (λ machine. HasFailed machine → ⊥) }
    {
        let state = State::opening(alloc, bundle)?;
        Ok(Machine {
            bundle,
            alloc,
            bound,
            depth: FRAME_LIMIT as u64,
            hand: file_hand(bundle, 0),
            pending: Vec::new(alloc),
            state,
        })
    }

    /// The state at the moment, after its writes.
    pub fn state(&self) -> &State
        ensures { result.now ≡ self.now.state }
    {
        &self.state
    }

    /// Goes on to the next moment, or to the end of the program, and counts a step for a moment. Once the program has
    /// ended it answers the same end; once memory has run out it answers so for good.
    pub fn step<L: Ledger>(&mut self, steps: &mut Steps<L>) -> Result<Progress, Memory>
        ensures goes_on { (bundle : SomeBundle) (bound : ℕ) (writes : List NumberedWrite) (n : ℕ)
            → StandsFor bundle bound writes n self.old
            → IfOk result (λ progress. GoesOn bundle bound writes n progress self.new) }
        ensures counted { IfOk result (λ progress. steps.new ≡ steps.old + steps_of progress) }
        ensures leaves { Leaves result self.new }
        ensures stays { (o : SomeOutcome) → HasEnded o self.old
            → IfOk result (λ progress. (progress ≡ any_progress.Ended o) × (self.new.state ≡ self.old.state)) }
        ensures fails { HasFailed self.old → OnOk result ⊥ }
    {
        if self.has_failed() {
            Err(Memory)
        } else {
            match self.next_moment() {
                Ok(progress) => {
                    count(&progress, steps);
                    Ok(progress)
                }
                Err(_) => Err(self.fail()),
            }
        }
    }

    /// Whether memory has run out.
    pub(crate) fn has_failed(&self) -> bool
        ensures failed { result ≡ true → HasFailed self.now }
        ensures not_failed { result ≡ false → HasFailed self.now → ⊥ }
    {
        match &self.hand {
            Hand::Failed => true,
            _ => false,
        }
    }

    /// From now on it answers that it is out of memory.
    pub(crate) fn fail(&mut self) -> Memory
        ensures { HasFailed self.new }
    {
        put_hand(&mut self.hand, Hand::Failed);
        Memory
    }

    /// Goes on to the next moment, or to the end of the program.
    fn next_moment(&mut self) -> Result<Progress, Memory>
        ensures goes_on { (bundle : SomeBundle) (bound : ℕ) (writes : List NumberedWrite) (n : ℕ)
            → StandsFor bundle bound writes n self.old
            → IfOk result (λ progress. GoesOn bundle bound writes n progress self.new) }
        ensures ends { OnOk result (Leaves result self.new) }
        ensures stays { (o : SomeOutcome) → HasEnded o self.old
            → IfOk result (λ progress. (progress ≡ any_progress.Ended o) × (self.new.state ≡ self.old.state)) }
    {
        match self.advance() {
            Ok(Arrival::Moment(kind, line)) => self.come(kind, line),
            Ok(Arrival::End(outcome)) => {
                put_hand(&mut self.hand, Hand::Over(outcome));
                Ok(Progress::Ended(outcome))
            }
            Err(_) => Err(Memory),
        }
    }

    /// A moment comes, unless it is beyond the bound.
    pub(crate) fn come(&mut self, kind: MomentKind, line: u32) -> Result<Progress, Memory>
        ensures { IfOk result (λ progress. Comes kind line self.old progress self.new) }
    {
        if self.state.moments >= self.bound {
            put_hand(&mut self.hand, Hand::Over(Outcome::Bound));
            Ok(Progress::Ended(Outcome::Bound))
        } else {
            self.state.set_line(line);
            self.state.count();
            match moment_of(kind, &self.state) {
                Ok(moment) => Ok(Progress::At(moment)),
                Err(_) => Err(Memory),
            }
        }
    }

    /// As many small steps as lead to a moment, or to the end.
    fn advance(&mut self) -> Result<Arrival, Memory>
        ensures { IfOk result (λ arrival. Arrives self.old (rest_of self.old self.old.state) arrival self.new) }
    {
        for _ in 0..u64::MAX {
            match self.go() {
                Came::On => {}
                Came::Moment(kind, line) => return Ok(Arrival::Moment(kind, line)),
                Came::Done => return Ok(Arrival::End(Outcome::Done)),
                Came::Over(outcome) => return Ok(Arrival::End(outcome)),
                Came::Failed => return Err(Memory),
            }
        }
        // No run has so many small steps.
        Err(Memory)
    }
}

/// A moment is a step.
fn count<L: Ledger>(progress: &Progress, steps: &mut Steps<L>)
    ensures { steps.new ≡ steps.old + steps_of progress.now }
{
    match progress {
        Progress::At(_) => steps.tick(),
        Progress::Ended(_) => {}
    }
}

/// What a small step that was halted comes to.
pub(crate) fn halted(why: Halt) -> Came
    ensures { result ≡ came_of why }
{
    match why {
        Halt::Finished(outcome) => Came::Over(outcome),
        other => {
            drop(other);
            Came::Failed
        }
    }
}
