//! A machine that goes past moments at which nobody looks, and takes the statements whole that have no others.

ghost use Rattle.std.specs.Prelude.{◌≡◌, IfSome};
ghost use Rattle.std.specs.Option.{option_copied};
ghost use Rattle.dp_step.specs.inner.Passing.{IsInHand, IsQuietBy};

use crate::finish::risen;
use crate::machine::{Arrival, Came, Machine, Progress, halted};
use crate::small::put_hand;
use crate::steps::Steps;
use dp_analysis::{DeepNames, loud_names};
use dp_bytes::Memory;
use dp_meaning::is_quiet;
use dp_small_steps::{Given, Hand};
use dp_state::Outcome;
use dp_tree::Statement;
use std::sync::ledger::Ledger;

impl<'p> Machine<'p> {
    ghost use Rattle.std.specs.Prelude.{◌≡◌, ℕ, List, Option, Some, is_some, IfOk, OnOk};
    ghost use Rattle.std.specs.Option.{option_copied};
    ghost use Rattle.dp_tree.specs.declared.bundle.Bundle.{Bundle as SomeBundle};
    ghost use Rattle.dp_meaning.specs.declared.writes.NumberedWrite.{NumberedWrite};
    ghost use Rattle.dp_analysis.specs.Quiet.{AreLoud};
    ghost use Rattle.dp_step.specs.Past.{GoesPast};
    ghost use Rattle.dp_step.specs.Stands.{HasFailed, Leaves, StandsFor};
    ghost use Rattle.dp_step.specs.inner.Passing.{Approaches, Gets, IsInHand, Nears};

    /// The names of the functions of the program whose calls may not be passed where these lines are watched.
    pub fn loud_names(&self, lines: &[u32]) -> Result<DeepNames<'p>, Memory>
        ensures { IfOk result (λ loud. AreLoud lines.now self.now.bundle.now (Some loud)) }
    {
        loud_names(self.alloc, lines, self.bundle)
    }

    /// Goes on to a moment, or to the end of the program, and counts a step for each moment up to there. Moments before
    /// a statement, a test or a binding may be passed where they are on none of these lines, and where there are names
    /// of loud functions also those at which functions are entered and left, so that the statements that have only such
    /// moments go as fast as the evaluator; no other moment is passed. Once memory has run out it answers so for good.
    pub fn go_past<L: Ledger>(
        &mut self,
        lines: &[u32],
        loud: Option<&DeepNames<'p>>,
        steps: &mut Steps<L>,
    ) -> Result<Progress, Memory>
        ensures goes_past { (bundle : SomeBundle) (bound : ℕ) (writes : List NumberedWrite) (n : ℕ)
            → StandsFor bundle bound writes n self.old → AreLoud lines.now bundle (option_copied loud.entry)
            → IfOk result (λ progress. GoesPast lines.now (is_some (option_copied loud.entry)) bundle bound writes n
            progress self.new steps.old steps.new) }
        ensures leaves { Leaves result self.new }
        ensures fails { HasFailed self.old → OnOk result ⊥ }
    {
        if self.has_failed() {
            Err(Memory)
        } else {
            let before = self.state.moments;
            match self.past(lines, loud) {
                Ok(progress) => {
                    steps.tick_all(risen(before, self.state.moments));
                    Ok(progress)
                }
                Err(_) => Err(self.fail()),
            }
        }
    }

    /// The same without the steps, where memory has not run out.
    fn past(&mut self, lines: &[u32], loud: Option<&DeepNames<'p>>) -> Result<Progress, Memory>
        ensures gets { AreLoud lines.now self.old.bundle.now (option_copied loud.entry)
            → IfOk result (λ progress. Gets lines.now (is_some (option_copied loud.entry)) self.old progress self.new) }
        ensures ends { OnOk result (Leaves result self.new) }
    {
        match self.approach(lines, loud) {
            Ok(Arrival::Moment(kind, line)) => self.come(kind, line),
            Ok(Arrival::End(outcome)) => {
                put_hand(&mut self.hand, Hand::Over(outcome));
                Ok(Progress::Ended(outcome))
            }
            Err(_) => Err(Memory),
        }
    }

    /// As many small steps and whole statements as lead to a moment that is not passed, or to the end.
    fn approach(&mut self, lines: &[u32], loud: Option<&DeepNames<'p>>) -> Result<Arrival, Memory>
        ensures { AreLoud lines.now self.old.bundle.now (option_copied loud.entry)
            → IfOk result (λ arrival. Approaches lines.now (is_some (option_copied loud.entry)) self.old arrival
            self.new) }
    {
        for _ in 0..u64::MAX {
            match self.nearer(lines, loud) {
                Came::On => {}
                Came::Moment(kind, line) => return Ok(Arrival::Moment(kind, line)),
                Came::Done => return Ok(Arrival::End(Outcome::Done)),
                Came::Over(outcome) => return Ok(Arrival::End(outcome)),
                Came::Failed => return Err(Memory),
            }
        }
        // No run has so many small steps.
        Err(Memory)
    }

    /// A statement that is quiet, or a small step.
    fn nearer(&mut self, lines: &[u32], loud: Option<&DeepNames<'p>>) -> Came
        ensures { AreLoud lines.now self.old.bundle.now (option_copied loud.entry)
            → Nears lines.now (is_some (option_copied loud.entry)) self.old result self.new }
    {
        match quiet_in(lines, loud, &self.hand) {
            Some(statement) => self.run_quiet(statement),
            None => self.go(),
        }
    }

    /// A statement that is in hand, whole.
    fn run_quiet(&mut self, statement: &'p Statement) -> Came
        ensures { (lines : List ℕ) (names : Option (List (List ℕ))) → AreLoud lines self.old.bundle.now names
            → IsInHand lines names self.old.hand statement.now
            → Nears lines (is_some names) self.old result self.new }
    {
        let done = self.whole().statement(statement, &mut self.state);
        match done {
            Ok(signal) => {
                let given = Given::Signal(signal);
                put_hand(&mut self.hand, Hand::Give(given));
                Came::On
            }
            Err(why) => halted(why),
        }
    }
}

/// The statement that is in hand, if it is quiet.
fn quiet_in<'p>(
    lines: &[u32],
    loud: Option<&DeepNames<'p>>,
    hand: &Hand<'p>,
) -> Option<&'p Statement>
    ensures { IfSome result (λ statement. IsInHand lines.now (option_copied loud.entry) hand.now statement.now) }
{
    match hand {
        Hand::Run(statement) => if_quiet(lines, loud, statement),
        _ => None,
    }
}

/// A statement, if it is quiet.
fn if_quiet<'p>(
    lines: &[u32],
    loud: Option<&DeepNames<'p>>,
    statement: &'p Statement,
) -> Option<&'p Statement>
    ensures { IfSome result (λ quiet. (quiet.now ≡ statement.now)
        × IsQuietBy lines.now (option_copied loud.entry) statement.now) }
{
    if is_quiet(lines, loud, statement) {
        Some(statement)
    } else {
        None
    }
}
