//! Writes and evaluations at the moment of a machine, and its state lent and given out.

ghost use Rattle.std.specs.Prelude.{◌≡◌, false, Ok, OnOk, OnErr, IfErr};
ghost use Rattle.dp_state.specs.Places.{assigned as assigned_at, given_keys as all_given};
ghost use Rattle.dp_state.specs.States.{IsCause};

use crate::apart::evaluation;
use crate::errors::StepError;
use crate::machine::Machine;
use dp_actions::given_keys;
use dp_bytes::Memory;
use dp_meaning::{NumberedWrite, write_all};
use dp_state::{Fault, Path, State};
use dp_tree::Expression;
use dp_value::Value;
use std::alloc::Global;
use std::mem;

impl Machine<'_> {
    ghost use Rattle.std.specs.Prelude.{◌≡◌, ℕ, ◌++◌, List, OnOk, OnErr};
    ghost use Rattle.std.specs.Borrow.{sem};
    ghost use Rattle.dp_tree.specs.declared.bundle.Bundle.{Bundle as SomeBundle};
    ghost use Rattle.dp_meaning.specs.declared.writes.NumberedWrite.{NumberedWrite};
    ghost use Rattle.dp_meaning.specs.Writes.{of_number};
    ghost use Rattle.dp_step.specs.Loans.{LendsState};
    ghost use Rattle.dp_step.specs.Stands.{HasFailed, StandsFor};

    /// Makes those of the writes that have the number of the moment, in their order; before the first moment there is
    /// none to make. Once memory has run out it answers so for good.
    pub fn write_all(&mut self, writes: &[NumberedWrite]) -> Result<(), Memory>
        ensures stands { (bundle : SomeBundle) (bound : ℕ) (made : List NumberedWrite) (n : ℕ)
            → StandsFor bundle bound made n self.old
            → OnOk result (StandsFor bundle bound (made ++ of_number n writes.now) n self.new) }
        ensures leaves { OnErr result (HasFailed self.new) }
        ensures fails { HasFailed self.old → OnOk result ⊥ }
    {
        if self.has_failed() {
            Err(Memory)
        } else {
            self.write_each(writes)
        }
    }

    /// The same where memory has not run out.
    fn write_each(&mut self, writes: &[NumberedWrite]) -> Result<(), Memory>
        ensures stands { (bundle : SomeBundle) (bound : ℕ) (made : List NumberedWrite) (n : ℕ)
            → StandsFor bundle bound made n self.old
            → OnOk result (StandsFor bundle bound (made ++ of_number n writes.now) n self.new) }
        ensures leaves { OnErr result (HasFailed self.new) }
    {
        let number = self.state.moments;
        if number == 0 {
            return Ok(());
        }
        match write_all(self.alloc, self.bundle, writes, number, &mut self.state) {
            Ok(()) => Ok(()),
            Err(_) => Err(self.fail()),
        }
    }

    /// Lends the state at the moment. The machine ends as it was, with the state that is left.
    pub fn state_mut(&mut self) -> &mut State
        ensures* lends { sem 𝓛 (LendsState self.entry result) }
        ensures state { result.now ≡ self.old.state }
    {
        &mut self.state
    }

    /// The state at the moment, or at the end.
    pub fn into_state(self) -> State
        ensures { result ≡ self.entry.state }
    {
        self.state
    }
}

impl Machine<'_> {
    ghost use Rattle.std.specs.Prelude.{◌≡◌, ◌++◌, ◌∷◌, [], ℕ, suc, ◌-◌, ◌<◌, false, length, List, OnOk};
    ghost use Rattle.dp_tree.specs.declared.bundle.Bundle.{Bundle as SomeBundle};
    ghost use Rattle.dp_state.specs.Places.{assigned, given_keys as keys_given};
    ghost use Rattle.dp_meaning.specs.declared.writes.NumberedWrite.{NumberedWrite};
    ghost use Rattle.dp_meaning.specs.declared.writes.Write.TheVariants as any_write;
    ghost use Rattle.dp_meaning.specs.Writes.{evaluated, evaluation_setting, place_or_fault, with_place};
    ghost use Rattle.dp_step.specs.Stands.{HasFailed, StandsFor};
    ghost use Rattle.dp_step.specs.Written.{Evaluates, Writes};
    ghost use Rattle.dp_step.specs.declared.errors.StepError.TheVariants as any_error;

    /// Gives a place a value at the moment. The path begins at a variable of the frame at the level, where 0 is the top
    /// frame, for the context 0, and at a global variable for the context 1. A refusal changes nothing. Once memory has
    /// run out it answers so for good.
    pub fn write(
        &mut self,
        level: u32,
        context: u32,
        path: &Path,
        value: Value,
    ) -> Result<(), StepError>
        ensures written { Writes (with_place level context path.now value self.old.state) result self.old self.new }
        ensures stands { OnOk result ((bundle : SomeBundle) (bound : ℕ) (writes : List NumberedWrite) (n : ℕ)
            → StandsFor bundle bound writes (suc n) self.old
            → StandsFor bundle bound (writes
            ++ record { moment = suc n; write = any_write.Place level context path.now value } ∷ []) (suc n) self.new) }
        ensures fails { HasFailed self.old → OnOk result ⊥ }
    {
        if self.has_failed() {
            drop(value);
            Err(StepError::Memory)
        } else {
            self.write_place(level, context, path, value)
        }
    }

    /// The same, without what the machine stands for then.
    fn write_place(
        &mut self,
        level: u32,
        context: u32,
        path: &Path,
        value: Value,
    ) -> Result<(), StepError>
        ensures { Writes (with_place level context path.now value self.old.state) result self.old self.new }
    {
        let depth = self.state.frames.len();
        if level as usize >= depth {
            drop(value);
            Err(StepError::NoFrame)
        } else if context == 0 {
            self.write_at(level as usize, path, value)
        } else if context == 1 {
            self.write_global(path, value)
        } else {
            drop(value);
            Err(StepError::NoPlace)
        }
    }

    /// Gives a place a value that begins at a global variable.
    fn write_global(&mut self, path: &Path, value: Value) -> Result<(), StepError>
        requires { 0 < length self.old.state.frames }
        ensures { Writes (place_or_fault (assigned (length self.old.state.frames - 1) path.now.name
            (keys_given path.now.keys) false value self.old.state)) result self.old self.new }
    {
        let depth = self.state.frames.len();
        self.write_at(depth - 1, path, value)
    }

    /// Gives a place a value that begins at a variable of the frame at a level.
    fn write_at(&mut self, level: usize, path: &Path, value: Value) -> Result<(), StepError>
        ensures { Writes (place_or_fault (assigned level path.now.name
            (keys_given path.now.keys) false value self.old.state)) result self.old self.new }
    {
        match assign_at(self.alloc, level, path, value, &mut self.state) {
            Ok(()) => Ok(()),
            Err(Fault::Fatal(_)) => Err(StepError::NoPlace),
            Err(Fault::Memory) => Err(self.failed()),
        }
    }

    /// From now on it answers that it is out of memory.
    fn failed(&mut self) -> StepError
        ensures failed { HasFailed self.new }
        ensures memory { result ≡ any_error.Memory }
    {
        self.fail();
        StepError::Memory
    }

    /// Evaluates an expression in the top frame at the moment, and keeps what it leaves. It has at most 10,000 moments
    /// of its own, which are counted apart. A refusal changes nothing. Once memory has run out it answers so for good.
    pub fn evaluate(&mut self, e: &Expression) -> Result<Value, StepError>
        ensures evaluated { Evaluates (evaluated (evaluation_setting self.old.bundle.now) e.now self.old.state) result
            self.old self.new }
        ensures stands { OnOk result ((bundle : SomeBundle) (bound : ℕ) (writes : List NumberedWrite) (n : ℕ)
            → StandsFor bundle bound writes (suc n) self.old
            → StandsFor bundle bound (writes ++ record { moment = suc n; write = any_write.Evaluate e.now } ∷ [])
            (suc n) self.new) }
        ensures fails { HasFailed self.old → OnOk result ⊥ }
    {
        if self.has_failed() {
            Err(StepError::Memory)
        } else {
            self.value_of(e)
        }
    }

    /// The same, without what the machine stands for then.
    fn value_of(&mut self, e: &Expression) -> Result<Value, StepError>
        ensures { Evaluates (evaluated (evaluation_setting self.old.bundle.now) e.now self.old.state) result self.old
            self.new }
    {
        match evaluation(self.alloc, self.bundle, e, &self.state) {
            Err(_) => Err(self.failed()),
            Ok(end) => {
                let (value, after) = end;
                match value {
                    None => {
                        drop(after);
                        Err(StepError::Fatal)
                    }
                    Some(value) => {
                        put_state(&mut self.state, after);
                        Ok(value)
                    }
                }
            }
        }
    }
}

/// Another state.
fn put_state(place: &mut State, state: State)
    ensures { place.new ≡ state }
{
    drop(mem::replace(place, state));
}

/// Gives a place a value that begins at a variable of the frame at a level.
fn assign_at(
    alloc: Global,
    level: usize,
    path: &Path,
    value: Value,
    state: &mut State,
) -> Result<(), Fault>
    ensures ok { OnOk result (assigned_at level path.now.name
        (all_given path.now.keys) false value state.old ≡ Ok state.new) }
    ensures refused { IfErr result (IsCause (assigned_at level path.now.name
        (all_given path.now.keys) false value state.old)) }
    ensures err { OnErr result (state.new ≡ state.old) }
{
    match given_keys(alloc, path.keys.as_slice()) {
        Ok(keys) => state.assign(level, &path.name, keys.as_slice(), false, value),
        Err(_) => {
            drop(value);
            Err(Fault::Memory)
        }
    }
}
