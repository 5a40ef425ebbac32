//! Frames, and whose variables each of them uses.

ghost use Rattle.std.specs.Borrow.{sem};
ghost use Rattle.std.specs.Prelude.{◌≡◌, ◌++◌, ◌∷◌, ◌+◌, ◌<◌, ◌≤◌, ◌-◌, [], length, take, IfOk, OnErr, OnOk};
ghost use Rattle.dp_state.specs.Functions.{called_frame, with_parameters};
ghost use Rattle.dp_state.specs.States.{owner as owner_of, with_line};
ghost use Rattle.dp_state.specs.declared.state.FrameKind.TheVariants as called_kind;
ghost use Rattle.dp_state.specs.inner.OwnVariables.{LendsVars};
ghost use Rattle.dp_state.specs.inner.Parts.{vars_in};

use crate::state::{Frame, FrameKind, Frames};
use crate::vars::{Slot, Vars, rename};
use dp_bytes::{Bytes, Items, Memory};
use dp_tree::Function;
use dp_value::Value;
use std::alloc::Global;

impl Frames {
    /// One frame.
    pub(crate) fn of(alloc: Global, frame: Frame) -> Result<Frames, Memory>
        ensures { IfOk result (λ frames. frames ≡ frame ∷ []) }
    {
        let mut frames = Frames {
            frames: Vec::new(alloc),
            live: 0,
            owners: Vec::new(alloc),
        };
        frames.push(frame)?;
        Ok(frames)
    }

    /// How many frames there are. Takes no memory.
    pub fn len(&self) -> usize
        ensures { result ≡ length self.now }
    {
        self.live
    }

    /// The frames, lent. Takes no memory.
    pub fn as_slice(&self) -> &[Frame]
        ensures { result.now ≡ self.now }
    {
        &self.frames[..self.live]
    }

    /// The position of the frame whose variables the frame at this position uses. Takes no memory.
    pub(crate) fn owner(&self, at: usize) -> usize
        ensures owner { result ≡ owner_of self.now at }
        ensures within { result ≤ at }
    {
        match self.owners.get(at) {
            Some(owner) => *owner,
            None => at,
        }
    }

    /// Whose variables a frame uses that goes on top.
    fn next_owner(&self, frame: &Frame) -> usize
        ensures { result ≡ owner_of (self.now ++ frame.now ∷ []) (length self.now) }
    {
        let at = self.live;
        if frame.shares {
            return self.owner(at.saturating_sub(1));
        }
        at
    }

    /// Puts a frame on top.
    pub(crate) fn push(&mut self, frame: Frame) -> Result<(), Memory>
        ensures ok { OnOk result (self.new ≡ self.old ++ frame ∷ []) }
        ensures err { OnErr result (self.new ≡ self.old) }
    {
        let owner = self.next_owner(&frame);
        self.owners.push(owner)?;
        match keep(&mut self.frames, self.live, frame) {
            Ok(()) => {
                self.live += 1;
                Ok(())
            }
            Err(Memory) => {
                let _ = self.owners.pop();
                Err(Memory)
            }
        }
    }

    /// Puts a frame on top for a call of this function of a file, with its parameters set.
    pub(crate) fn call(
        &mut self,
        alloc: Global,
        file: u32,
        function: &Function,
        values: Items<Value>,
    ) -> Result<(), Memory>
        ensures ok { OnOk result (self.new ≡ self.old ++ called_frame file function.now values ∷ []) }
        ensures err { OnErr result (self.new ≡ self.old) }
    {
        make_room(&mut self.frames, self.live, alloc)?;
        begin_call(&mut self.frames[self.live], file, function, values)?;
        self.owners.push(self.live)?;
        self.live += 1;
        Ok(())
    }

    /// Takes the top frame off. Takes no memory.
    pub(crate) fn pop(&mut self)
        ensures { self.new ≡ take (length self.old - 1) self.old }
    {
        if self.live == 0 {
            return;
        }
        self.live -= 1;
        self.frames[self.live].vars.clear();
        let _ = self.owners.pop();
    }

    /// Gives the top frame a line. Takes no memory.
    pub(crate) fn set_top_line(&mut self, line: u32)
        ensures { self.new ≡ with_line line self.old }
    {
        if self.live > 0 {
            self.frames[self.live - 1].line = line;
        }
    }

    /// Lends the own variables of the frame at this position. Takes no memory.
    pub(crate) fn vars_mut(&mut self, at: usize) -> &mut Vars
        requires { at < length self.old }
        ensures* lends { sem 𝓛 (LendsVars self.entry at result) }
        ensures value { result.now ≡ vars_in self.old at }
    {
        let frame = &mut self.frames[at];
        &mut frame.vars
    }

    /// Equal frames in the same order.
    pub(crate) fn try_clone(&self, alloc: Global) -> Result<Frames, Memory>
        ensures { IfOk result (λ copy. copy ≡ self.now) }
    {
        Ok(Frames {
            frames: copy_frames(alloc, self.as_slice())?,
            live: self.live,
            owners: Vec::from_slice(alloc, self.owners.as_slice())?,
        })
    }
}

/// Keeps a frame behind those on the stack, which are so many.
fn keep(frames: &mut Vec<Frame>, live: usize, frame: Frame) -> Result<(), Memory>
    requires { live ≤ length frames.old.items }
    ensures ok { OnOk result (take (live + 1) frames.new.items ≡ take live frames.old.items ++ frame ∷ []) }
    ensures within { OnOk result (live < length frames.new.items) }
    ensures err { OnErr result (frames.new.items ≡ frames.old.items) }
{
    if live < frames.len() {
        frames[live] = frame;
        return Ok(());
    }
    frames.push(frame)?;
    Ok(())
}

/// Keeps a frame for a call behind those on the stack, which are so many, unless one is there.
fn make_room(frames: &mut Vec<Frame>, live: usize, alloc: Global) -> Result<(), Memory>
    requires { live ≤ length frames.old.items }
    ensures room { OnOk result (live < length frames.new.items) }
    ensures same { take live frames.new.items ≡ take live frames.old.items }
    ensures err { OnErr result (frames.new.items ≡ frames.old.items) }
{
    if live < frames.len() {
        return Ok(());
    }
    frames.push(spare_frame(alloc))?;
    Ok(())
}

/// A frame that is kept for a call.
fn spare_frame(alloc: Global) -> Frame {
    Frame {
        kind: FrameKind::Included,
        file: 0,
        line: 0,
        shares: false,
        vars: Vars::new(alloc),
    }
}

/// Makes a frame that of a call of this function of a file, with its parameters set. What it had goes, but the names
/// that are the same are kept.
fn begin_call(
    frame: &mut Frame,
    file: u32,
    function: &Function,
    values: Items<Value>,
) -> Result<(), Memory>
    ensures { OnOk result (frame.new ≡ called_frame file function.now values) }
{
    name_call(&mut frame.kind, &function.name)?;
    frame.file = file;
    frame.line = function.line;
    frame.shares = false;
    frame.vars.clear();
    set_parameters(&mut frame.vars, function.parameters.as_slice(), values)
}

/// Makes what a frame is of a call of the function of this name.
fn name_call(kind: &mut FrameKind, name: &Bytes) -> Result<(), Memory>
    ensures { OnOk result (kind.new ≡ called_kind.Called name.now) }
{
    match kind {
        FrameKind::Called(kept) => rename(kept, name),
        FrameKind::Main | FrameKind::Included => {
            *kind = FrameKind::Called(name.try_clone()?);
            Ok(())
        }
    }
}

/// Gives parameters their values.
fn set_parameters(vars: &mut Vars, names: &[Bytes], values: Items<Value>) -> Result<(), Memory>
    ensures { OnOk result (vars.new ≡ with_parameters names.now values vars.old) }
{
    for (name, value) in names.iter().zip(values.into_vec()) {
        vars.set(name, Slot::Held(value))?;
    }
    Ok(())
}

/// Equal frames in the same order.
fn copy_frames(alloc: Global, frames: &[Frame]) -> Result<Vec<Frame>, Memory>
    ensures { IfOk result (λ copy. copy.items ≡ frames.now) }
{
    let mut copies = Vec::with_capacity(alloc, frames.len())?;
    for frame in frames {
        copies.push(frame.try_clone()?)?;
    }
    Ok(copies)
}
