//! Evaluations by a machine of their own, whose pending work lies on the heap.

ghost use Rattle.std.specs.Prelude.{◌≡◌, IfOk, option_map};
ghost use Rattle.dp_meaning.specs.Writes.{evaluated, evaluation_setting};
ghost use Rattle.dp_step.specs.inner.Apart.{value_in};

use crate::machine::{Came, Machine, Progress};
use dp_actions::Signal;
use dp_bytes::Memory;
use dp_meaning::EVALUATION_LIMIT;
use dp_small_steps::{AfterValue, Given, Hand, Waiting, Work};
use dp_state::{FRAME_LIMIT, MomentKind, State};
use dp_tree::{Bundle, Expression};
use dp_value::Value;
use std::alloc::Global;
use std::mem;

/// The value of an expression in the top frame of a state, where it holds, and the state that its evaluation leaves;
/// the state itself stays as it is. It does not hold where it is fatal, ends the program or has more than 10,000
/// moments, and then nothing is said of the state that is handed out. Copies the state. It takes no more of the stack
/// the deeper it calls.
pub fn evaluation(
    alloc: Global,
    bundle: &Bundle,
    e: &Expression,
    state: &State,
) -> Result<(Option<Value>, State), Memory>
    ensures { IfOk result (λ end. evaluated (evaluation_setting bundle.now) e.now state.now ≡ option_map
        (λ v. (v, end.1)) end.0) }
{
    let mut copy = state.try_clone()?;
    copy.moments = 0;
    let mut machine = Machine::idle(alloc, bundle, copy);
    match machine.value_of_all(e) {
        Ok(value) => {
            let mut after = machine.into_state();
            after.moments = state.moments;
            Ok((value, after))
        }
        Err(refused) => {
            drop(machine);
            Err(refused)
        }
    }
}

/// The value that was given back, if what was given is one.
fn value_given(given: Given) -> Option<Value>
    ensures { result ≡ value_in given }
{
    match given {
        Given::Signal(Signal::Return(value)) => Some(value),
        other => {
            drop(other);
            None
        }
    }
}

impl<'p> Machine<'p> {
    ghost use Rattle.std.specs.Prelude.{◌≡◌, [], IfOk, Some};
    ghost use Rattle.dp_actions.specs.Expressions.{evaluation};
    ghost use Rattle.dp_meaning.specs.inner.Drive.{ComesTo, drive, only_bounded};
    ghost use Rattle.dp_step.specs.Stands.{rest_of};
    ghost use Rattle.dp_step.specs.inner.Apart.{GivesBack, IsIdle};
    ghost use Rattle.dp_step.specs.inner.Moves.{setting_at};

    /// Nothing to do, in a state.
    fn idle(alloc: Global, bundle: &'p Bundle, state: State) -> Machine<'p>
        ensures { IsIdle bundle.now state result }
    {
        Machine {
            bundle,
            alloc,
            bound: EVALUATION_LIMIT,
            depth: FRAME_LIMIT as u64,
            hand: Hand::Failed,
            pending: Vec::new(alloc),
            state,
        }
    }

    /// Evaluates an expression where nothing is to be done: its value, where it has one.
    fn value_of_all(&mut self, e: &'p Expression) -> Result<Option<Value>, Memory>
        requires { self.old.pending.items ≡ [] }
        ensures { IfOk result (λ answer. ComesTo (drive (only_bounded self.old.bound)
            (evaluation e.now (setting_at self.old) self.old.state)) answer self.new.state) }
    {
        let item = Waiting::Part(Work::AfterValue(AfterValue::ReturnIt));
        self.hold_both(Hand::Evaluate(e), item)?;
        self.give_back()
    }

    /// Small steps until all is done, and the value that is given back, if there is one.
    fn give_back(&mut self) -> Result<Option<Value>, Memory>
        ensures { IfOk result (λ answer. GivesBack self.old (rest_of self.old self.old.state) (Some answer) self.new) }
    {
        for _ in 0..u64::MAX {
            match self.give()? {
                None => {}
                Some(answer) => return Ok(answer),
            }
        }
        Err(Memory)
    }

    /// A small step, the moment to which it comes, and the value that is given back, once all is done.
    fn give(&mut self) -> Result<Option<Option<Value>>, Memory>
        ensures { IfOk result (λ end. GivesBack self.old (rest_of self.old self.old.state) end self.new) }
    {
        match self.go() {
            Came::On => Ok(None),
            Came::Moment(kind, line) => self.pass_moment(kind, line),
            Came::Done => Ok(Some(self.take_value())),
            Came::Over(_) => Ok(Some(None)),
            Came::Failed => Err(Memory),
        }
    }
}

impl<'p> Machine<'p> {
    ghost use Rattle.std.specs.Prelude.{◌≡◌, IfOk};
    ghost use Rattle.dp_actions.specs.Run.{At};
    ghost use Rattle.dp_step.specs.Stands.{rest_of};
    ghost use Rattle.dp_step.specs.inner.Apart.{GivesBack, value_in_hand};

    /// A moment comes. Beyond the bound there is no value.
    fn pass_moment(&mut self, kind: MomentKind, line: u32) -> Result<Option<Option<Value>>, Memory>
        ensures { IfOk result (λ end. GivesBack self.old (At kind line self.old.state (rest_of self.old)) end
            self.new) }
    {
        match self.come(kind, line)? {
            Progress::At(moment) => {
                drop(moment);
                Ok(None)
            }
            Progress::Ended(_) => Ok(Some(None)),
        }
    }

    /// The value that is in hand, if one was given back.
    fn take_value(&mut self) -> Option<Value>
        ensures value { result ≡ value_in_hand self.old.hand }
        ensures kept { (self.new.state ≡ self.old.state) × (self.new.bound ≡ self.old.bound) }
    {
        match mem::replace(&mut self.hand, Hand::Failed) {
            Hand::Give(given) => value_given(given),
            hand => {
                drop(hand);
                None
            }
        }
    }
}
