//! Copies of states.

ghost use Rattle.std.specs.Prelude.{◌≡◌, IfOk, OnOk};
ghost use Rattle.dp_state.specs.inner.Parts.{with_pair};

use crate::state::{Frame, FrameKind, State};
use crate::vars::{Slot, Vars};
use dp_bytes::Memory;

impl Slot {
    /// An equal slot.
    pub fn try_clone(&self) -> Result<Slot, Memory>
        ensures { IfOk result (λ copy. copy ≡ self.now) }
    {
        match self {
            Slot::Held(value) => Ok(Slot::Held(value.try_clone()?)),
            Slot::Bound => Ok(Slot::Bound),
        }
    }
}

/// Gives the variable at a position of these variables to others.
fn copy_pair(from: &Vars, at: usize, to: &mut Vars) -> Result<(), Memory>
    ensures { OnOk result (to.new ≡ with_pair from.now at to.old) }
{
    match from.pair(at) {
        Some((name, slot)) => to.set(name, slot.try_clone()?),
        None => Ok(()),
    }
}

impl Vars {
    /// Equal variables.
    pub fn try_clone(&self) -> Result<Vars, Memory>
        ensures { IfOk result (λ copy. copy ≡ self.now) }
    {
        let mut copy = Vars::new(self.allocator());
        for at in 0..self.len() {
            copy_pair(self, at, &mut copy)?;
        }
        Ok(copy)
    }
}

impl FrameKind {
    /// An equal kind.
    pub fn try_clone(&self) -> Result<FrameKind, Memory>
        ensures { IfOk result (λ copy. copy ≡ self.now) }
    {
        match self {
            FrameKind::Main => Ok(FrameKind::Main),
            FrameKind::Called(name) => Ok(FrameKind::Called(name.try_clone()?)),
            FrameKind::Included => Ok(FrameKind::Included),
        }
    }
}

impl Frame {
    /// An equal frame.
    pub fn try_clone(&self) -> Result<Frame, Memory>
        ensures { IfOk result (λ copy. copy ≡ self.now) }
    {
        Ok(Frame {
            kind: self.kind.try_clone()?,
            file: self.file,
            line: self.line,
            shares: self.shares,
            vars: self.vars.try_clone()?,
        })
    }
}

impl State {
    /// An equal state.
    pub fn try_clone(&self) -> Result<State, Memory>
        ensures { IfOk result (λ copy. copy ≡ self.now) }
    {
        let alloc = self.globals.allocator();
        Ok(State {
            frames: self.frames.try_clone(alloc)?,
            globals: self.globals.try_clone()?,
            constants: self.constants.try_clone()?,
            declared: self.declared.try_clone(alloc)?,
            output: self.output.try_clone()?,
            moments: self.moments,
        })
    }
}
