//! A source and a sink in memory, which fail where they are told to.
ghost use Rattle.std.specs.Prelude.{◌≡◌, ◌↔◌, ◌⊎◌, ◌+◌, ◌<◌, ◌≤◌, [], length, Some, IfOk, OnErr, OnOk, IsErr};
ghost use Rattle.std.specs.Prelude.{IsOk, IsTrue, is_err};
ghost use Rattle.std.specs.Io.KnownBytes.{ReadConsumes};
ghost use Rattle.dp_outside.specs.Causes.{HasCause};
ghost use Rattle.dp_outside.specs.Fakes.{after_call, after_piece, first_plan, is_due, piece_length, whole_tape};
ghost use Rattle.dp_outside.specs.Streams.{PutAppends, TakeGives};

use crate::plans::FailPlan;
use crate::tapes::Pieces;
use crate::{Failed, Memory, Sink, Source};
use std::alloc::Global;
use std::marker::Model;

/// A source over bytes in memory, which gives them in pieces and fails where it is told to.
///
/// Contracts see its tape (the bytes given, those left, the sizes of the pieces to come) and its plan (the numbers
/// of the calls that fail, the calls and the faults so far).
#[derive(Debug, Drop)]
pub struct ByteSource {
    pieces: Pieces,
    plan: FailPlan,
}

impl Model for ByteSource {
    ghost use Rattle.dp_outside.specs.Fakes.{SourceState};

    ghost Value = { SourceState };

    ghost view = { λ s. record { tape = s.pieces; plan = s.plan } };
}

impl ByteSource {
    /// A source of these bytes. Each take that does not fail gives a piece of the next size in `cuts`, where 0
    /// counts as 1, or as many bytes as `buf` and the input have; past the end of `cuts` a piece is as long as
    /// `buf`. Those calls of `take` fail whose numbers, counted from 1, stand in `fails`.
    pub fn new(bytes: Vec<u8>, cuts: Vec<usize>, fails: Vec<u64>) -> Result<Self, Memory>
        ensures tape { IfOk result (λ source. source.tape ≡ whole_tape bytes.items cuts.items) }
        ensures plan { IfOk result (λ source. source.plan ≡ first_plan fails.items) }
        ensures sure { IsOk result }
    {
        Ok(ByteSource {
            pieces: Pieces::new(bytes, cuts),
            plan: FailPlan::new(fails),
        })
    }

    /// How often it has failed.
    pub fn faults(&self) -> u64
        ensures { result ≡ self.now.plan.faults }
    {
        self.plan.faults()
    }

    /// The bytes that it still gives.
    pub fn left(&self) -> &[u8]
        ensures { result.now ≡ self.now.tape.left }
    {
        self.pieces.left()
    }
}

impl Source for ByteSource {
    ghost left = { λ s. Some s.tape.left };

    ghost given = { λ s. Some s.tape.given };

    ghost faults = { λ s. s.plan.faults };

    ghost tells_both = { λ _ told. told };

    fn take(&mut self, buf: &mut [u8]) -> Result<usize, Failed>
        ensures bound { IfOk result (λ count. count ≤ length buf.new) }
        ensures left { ReadConsumes (Some self.old.tape.left) (Some self.new.tape.left) result buf.new }
        ensures given { TakeGives (Some self.old.tape.given) (Some self.new.tape.given) result buf.new }
        ensures held { OnOk result (self.new.plan.faults ≡ self.old.plan.faults) }
        ensures cause { HasCause self.old.plan.faults self.new.plan.faults result }

        // It fails exactly where its plan says so, and gives pieces of the planned sizes.
        ensures due { is_err result ≡ is_due self.old.plan }
        ensures plan { self.new.plan ≡ after_call self.old.plan (is_err result) }
        ensures piece { IfOk result (λ count. count ≡ piece_length self.old.tape (length buf.old)) }
        ensures moved { IfOk result (λ count. self.new.tape ≡ after_piece self.old.tape count) }
        ensures kept { OnErr result (self.new.tape ≡ self.old.tape) }
    {
        self.plan.call()?;
        Ok(self.pieces.give(buf))
    }
}

/// A sink that keeps its bytes in memory, within its room, and fails where it is told to.
///
/// Contracts see the bytes taken, the room in all, and its plan as that of a `ByteSource`.
#[derive(Debug, Drop)]
pub struct ByteSink {
    bytes: Vec<u8>,
    room: usize,
    plan: FailPlan,
}

impl Model for ByteSink {
    ghost use Rattle.std.specs.Prelude.{◌≤◌, vec_capacity, vec_len};
    ghost use Rattle.dp_outside.specs.Fakes.{SinkState};

    ghost Value = { SinkState };

    ghost view = { λ s. record { taken = s.bytes.items; room = s.room; plan = s.plan } };

    ghost invariant = { λ s. (vec_len s.bytes ≤ s.room) × (s.room ≤ vec_capacity s.bytes) };
}

impl ByteSink {
    /// A sink with room for `room` bytes, which it reserves here. A put that does not fit in what is left is a
    /// fault and takes nothing, and so is each put whose number, counted from 1, stands in `fails`.
    pub fn new(alloc: Global, room: usize, fails: Vec<u64>) -> Result<Self, Memory>
        ensures taken { IfOk result (λ sink. sink.taken ≡ []) }
        ensures room { IfOk result (λ sink. sink.room ≡ room) }
        ensures plan { IfOk result (λ sink. sink.plan ≡ first_plan fails.items) }
    {
        Ok(ByteSink {
            bytes: Vec::with_capacity(alloc, room)?,
            room,
            plan: FailPlan::new(fails),
        })
    }

    /// How often it has failed.
    pub fn faults(&self) -> u64
        ensures { result ≡ self.now.plan.faults }
    {
        self.plan.faults()
    }

    /// The bytes that it has taken.
    pub fn taken(&self) -> &[u8]
        ensures { result.now ≡ self.now.taken }
    {
        self.bytes.as_slice()
    }
}

impl Sink for ByteSink {
    ghost taken = { λ s. Some s.taken };

    ghost faults = { λ s. s.plan.faults };

    fn put(&mut self, bytes: &[u8]) -> Result<(), Failed>
        ensures taken { PutAppends (Some self.old.taken) (Some self.new.taken) result bytes.now }
        ensures held { OnOk result (self.new.plan.faults ≡ self.old.plan.faults) }
        ensures cause { HasCause self.old.plan.faults self.new.plan.faults result }

        // It fails exactly where its plan says so or the bytes do not fit, and then takes nothing.
        ensures due { IsErr result ↔ (IsTrue (is_due self.old.plan)
            ⊎ (self.old.room < length self.old.taken + length bytes.now)) }
        ensures plan { self.new.plan ≡ after_call self.old.plan (is_err result) }
        ensures room { self.new.room ≡ self.old.room }
        ensures kept { OnErr result (self.new.taken ≡ self.old.taken) }
    {
        self.plan.call()?;
        if bytes.len() > self.room - self.bytes.len() {
            self.plan.fault();
            return Err(Failed);
        }
        if self.bytes.extend_from_slice(bytes).is_err() {
            unreachable!()
        }
        Ok(())
    }

    fn finish(&mut self)
        ensures taken { self.new.taken ≡ self.old.taken }
        ensures faults { self.new.plan.faults ≡ self.old.plan.faults }
        ensures same { self.new ≡ self.old }
    {}
}
