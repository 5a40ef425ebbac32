//! The steps on a state.

ghost use Rattle.std.specs.Prelude.{◌≡◌, ◌++◌, ◌<◌, Ok, IfErr, OnOk, OnErr};
ghost use Rattle.dp_state.specs.States.{counted, entered, left, on_line, printed, IsCause, IsSure};

use crate::moments::FatalKind;
use crate::state::{Fault, Frame, State};
use dp_bytes::{Bytes, Memory};
use std::alloc::Global;
use std::mem;

/// The most frames, the main one counted.
pub const FRAME_LIMIT: usize = 1000;

/// The most bytes that a program may write.
pub const OUTPUT_LIMIT: usize = 16_777_216;

impl State {
    /// What the state takes its memory from.
    pub(crate) fn allocator(&self) -> Global {
        self.globals.allocator()
    }

    /// Gives the top frame a line. Takes no memory.
    pub fn set_line(&mut self, line: u32)
        ensures { self.new ≡ on_line line self.old }
    {
        self.frames.set_top_line(line);
    }

    /// Counts a moment. The caller shows that the count has not reached its last value. Takes no memory.
    pub fn count(&mut self)
        requires { self.old.moments < u64.MAX }
        ensures { self.new ≡ counted self.old }
    {
        self.moments += 1;
    }

    /// Writes a piece of output.
    ///
    /// `OutputFull` comes exactly where more than [`OUTPUT_LIMIT`] bytes would be written, also where there is no
    /// memory. After a refusal the state is as before.
    pub fn print(&mut self, piece: &[u8]) -> Result<(), Fault>
        ensures ok { OnOk result (printed piece.now self.old ≡ Ok self.new) }
        ensures sure { IsSure (printed piece.now self.old) result }
        ensures refused { IfErr result (IsCause (printed piece.now self.old)) }
        ensures err { OnErr result (self.new ≡ self.old) }
    {
        if self.output.len().saturating_add(piece.len()) > OUTPUT_LIMIT {
            return Err(Fault::Fatal(FatalKind::OutputFull));
        }
        let alloc = self.allocator();
        append(alloc, &mut self.output, piece)?;
        Ok(())
    }

    /// Puts a frame on top.
    ///
    /// `TooDeep` comes exactly where there would be more than [`FRAME_LIMIT`], also where there is no memory. After a
    /// refusal the state is as before.
    pub fn enter(&mut self, frame: Frame) -> Result<(), Fault>
        ensures ok { OnOk result (entered frame self.old ≡ Ok self.new) }
        ensures sure { IsSure (entered frame self.old) result }
        ensures refused { IfErr result (IsCause (entered frame self.old)) }
        ensures err { OnErr result (self.new ≡ self.old) }
    {
        if self.frames.len() >= FRAME_LIMIT {
            return Err(Fault::Fatal(FatalKind::TooDeep));
        }
        self.frames.push(frame)?;
        Ok(())
    }

    /// Takes the top frame off. Takes no memory.
    pub fn leave(&mut self)
        ensures { self.new ≡ left self.old }
    {
        self.frames.pop();
    }
}

/// Puts a piece behind the bytes.
fn append(alloc: Global, bytes: &mut Bytes, piece: &[u8]) -> Result<(), Memory>
    ensures ok { OnOk result (bytes.new ≡ bytes.old ++ piece.now) }
    ensures err { OnErr result (bytes.new ≡ bytes.old) }
{
    let mut held = mem::replace(bytes, Bytes::of(Vec::new(alloc))).into_vec();
    let added = held.extend_from_slice(piece);
    *bytes = Bytes::of(held);
    added
}
