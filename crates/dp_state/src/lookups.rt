//! The reading of variables.

ghost use Rattle.std.specs.Prelude.{◌≡◌, ◌≤◌, ◌-◌, length, option_map};
ghost use Rattle.dp_state.specs.Variables.{slot_of, value_held};
ghost use Rattle.dp_state.specs.States.{file_of, line_of, own_variables, owner_at as owner_of_level};
ghost use Rattle.dp_state.specs.States.{read, read_at, top_frame, variables_at};

use crate::state::{Frame, State};
use crate::vars::{Slot, Vars};
use dp_bytes::Bytes;
use dp_value::Value;

impl State {
    /// The own variables of the frame at this position; those of the lowest are the global ones.
    pub(crate) fn own(&self, at: usize) -> &Vars
        ensures { result.now ≡ own_variables self.now at }
    {
        if at == 0 {
            return &self.globals;
        }
        match self.frames.as_slice().get(at) {
            Some(frame) => &frame.vars,
            None => &self.globals,
        }
    }

    /// The position of the frame whose variables the frame at a level uses.
    pub(crate) fn owner_at(&self, level: usize) -> usize
        ensures owner { result ≡ owner_of_level self.now level }
        ensures within { result ≤ length self.now.frames - 1 }
    {
        let top = self.frames.len().saturating_sub(1);
        self.frames.owner(top.saturating_sub(level))
    }

    /// The variables that the frame at a level uses. Level 0 is the top frame, and a level beyond the frames is that of
    /// the lowest one. Takes no memory.
    pub fn variables(&self, level: usize) -> &Vars
        ensures { result.now ≡ variables_at self.now level }
    {
        self.own(self.owner_at(level))
    }

    /// The value of a global variable.
    fn global(&self, name: &Bytes) -> Option<&Value>
        ensures { option_map (λ value. value.now) result ≡ value_held (slot_of self.now.globals name.now) }
    {
        match self.globals.get(name) {
            None => None,
            Some(Slot::Bound) => None,
            Some(Slot::Held(value)) => Some(value),
        }
    }

    /// The value of a variable at a level, as [`State::variables`] counts them; that of the global variable where the
    /// name is bound. Takes no memory.
    pub fn read_at(&self, level: usize, name: &Bytes) -> Option<&Value>
        ensures { option_map (λ value. value.now) result ≡ read_at self.now level name.now }
    {
        match self.variables(level).get(name) {
            None => None,
            Some(Slot::Bound) => self.global(name),
            Some(Slot::Held(value)) => Some(value),
        }
    }

    /// The value of a variable of the top frame, as [`State::read_at`] reads it. Takes no memory.
    pub fn read(&self, name: &Bytes) -> Option<&Value>
        ensures { option_map (λ value. value.now) result ≡ read self.now name.now }
    {
        self.read_at(0, name)
    }

    /// The top frame.
    fn top(&self) -> Option<&Frame>
        ensures { option_map (λ frame. frame.now) result ≡ top_frame self.now }
    {
        let frames = self.frames.as_slice();
        frames.get(frames.len().saturating_sub(1))
    }

    /// The number of the top frame's file. Takes no memory.
    pub fn file(&self) -> u32
        ensures { result ≡ file_of self.now }
    {
        match self.top() {
            Some(frame) => frame.file,
            None => 0,
        }
    }

    /// The top frame's line. Takes no memory.
    pub fn line(&self) -> u32
        ensures { result ≡ line_of self.now }
    {
        match self.top() {
            Some(frame) => frame.line,
            None => 0,
        }
    }
}
