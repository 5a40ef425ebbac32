//! A lane of a session, which passes whole frames alone.
ghost use Rattle.std.specs.Prelude.{◌≡◌, ◌↔◌, ◌+◌, ◌≤◌, [], ◌++◌, List, ℕ, Ok, None, min, length, IsErr, IfOk};
ghost use Rattle.std.specs.Prelude.{IfErr, IfSome, OnOk, OnErr};
ghost use Rattle.dp_wire.specs.Received.{last_place};
ghost use Rattle.dp_lanes.specs.Lanes.{frame, texts_in};
ghost use Rattle.dp_lanes.specs.Places.{BeginsWith, IsPart, BeginsNone, Causes, IsFront, kind_of};
ghost use Rattle.dp_lanes.specs.Places.{lane_piece_limit, most_held, received_in};

use dp_bytes::Memory;
use dp_wire::{Commands, Packets, WireError};
use std::alloc::Global;
use std::ops::Range;

/// The most bytes that a lane is fed at once.
pub const PIECE_LIMIT: usize = 65_536;

/// Which way a lane goes.
#[derive(Clone, Copy, Debug, PartialEq, Eq)]
pub enum LaneKind {
    /// Packets, from the engine to the IDE.
    Up,
    /// Commands, from the IDE to the engine.
    Down,
}

/// A lane: what came in it of which no whole frame was handed out yet.
#[derive(Debug, Drop)]
pub enum Lane {
    Up(Packets),
    Down(Commands),
}

impl Lane {
    /// A lane that holds no byte. Takes no memory.
    pub fn new(alloc: Global, kind: LaneKind) -> Lane
        ensures kind { kind_of result ≡ kind }
        ensures held { (received_in result).held ≡ [] }
        ensures dropped { (received_in result).dropped ≡ 0 }
    {
        match kind {
            LaneKind::Up => Lane::Up(Packets::new(alloc)),
            LaneKind::Down => Lane::Down(Commands::new(alloc)),
        }
    }

    /// The bytes held. Takes no memory.
    pub fn bytes(&self) -> &[u8]
        ensures { result.now ≡ (received_in self.now).held }
    {
        match self {
            Lane::Up(packets) => packets.bytes(),
            Lane::Down(commands) => commands.bytes(),
        }
    }

    /// The place in the stream of the first byte held. Stays at 2^64 - 1. Takes no memory.
    pub(crate) fn dropped(&self) -> u64
        ensures { result ≡ (received_in self.now).dropped }
    {
        match self {
            Lane::Up(packets) => packets.dropped(),
            Lane::Down(commands) => commands.dropped(),
        }
    }

    /// Appends bytes of the stream.
    pub(crate) fn append(&mut self, bytes: &[u8]) -> Result<(), Memory>
        ensures kind { kind_of self.new ≡ kind_of self.old }
        ensures ok { OnOk result ((received_in self.new).held ≡ (received_in self.old).held ++ bytes.now) }
        ensures dropped { (received_in self.new).dropped ≡ (received_in self.old).dropped }
        ensures err { OnErr result (self.new ≡ self.old) }
    {
        match self {
            Lane::Up(packets) => packets.feed(bytes),
            Lane::Down(commands) => commands.feed(bytes),
        }
    }

    /// Appends a piece of the stream, where more of a frame has to come. If memory runs out all stays as before.
    pub fn feed(&mut self, piece: &[u8]) -> Result<(), Memory>
        requires part { IsPart (kind_of self.old) (received_in self.old).held }
        requires piece { length piece.now ≤ lane_piece_limit }
        ensures kind { kind_of self.new ≡ kind_of self.old }
        ensures ok { OnOk result ((received_in self.new).held ≡ (received_in self.old).held ++ piece.now) }
        ensures dropped { (received_in self.new).dropped ≡ (received_in self.old).dropped }
        ensures err { OnErr result (self.new ≡ self.old) }
    {
        self.append(piece)
    }

    /// The range of the first text among the bytes held, `None` where more has to come: then at most 16,777,225 bytes
    /// of packets are held, or 1,048,576 of commands. A refusal where no frame begins the bytes held. Takes no memory.
    pub fn next(&self) -> Result<Option<Range<usize>>, WireError>
        ensures whole { IfOk result (λ found. IfSome found (λ range.
            IsFront (kind_of self.now) (received_in self.now).held range.start range.end)) }
        ensures part { (result ≡ Ok None) ↔ IsPart (kind_of self.now) (received_in self.now).held }
        ensures refused { IsErr result ↔ BeginsNone (kind_of self.now) (received_in self.now).held }
        ensures cause { IfErr result (Causes (kind_of self.now) (received_in self.now)) }
        ensures none { result ≡ Ok None → texts_in (kind_of self.now) (received_in self.now).held ≡ [] }
        ensures held { result ≡ Ok None → length (received_in self.now).held ≤ most_held (kind_of self.now) }
    {
        match self {
            Lane::Up(packets) => packets.next(),
            Lane::Down(commands) => commands.next(),
        }
    }

    /// The first frame with its framing. Takes no memory.
    pub fn front(&self) -> Result<Option<&[u8]>, WireError>
        ensures whole { IfOk result (λ found. IfSome found (λ bytes. (text rest : List ℕ)
            × BeginsWith (kind_of self.now) (received_in self.now).held text rest
            × (bytes.now ≡ frame (kind_of self.now) text))) }
        ensures part { (result ≡ Ok None) ↔ IsPart (kind_of self.now) (received_in self.now).held }
        ensures refused { IsErr result ↔ BeginsNone (kind_of self.now) (received_in self.now).held }
        ensures cause { IfErr result (Causes (kind_of self.now) (received_in self.now)) }
    {
        match self.next()? {
            Some(range) => Ok(Some(&self.bytes()[..range.end + 1])),
            None => Ok(None),
        }
    }

    /// Drops the first frame. Takes no memory.
    pub fn drop_front(&mut self)
        requires { (text rest : List ℕ) × BeginsWith (kind_of self.old) (received_in self.old).held text rest }
        ensures kind { kind_of self.new ≡ kind_of self.old }
        ensures held { (text rest : List ℕ) → BeginsWith (kind_of self.old) (received_in self.old).held text rest
            → (received_in self.new).held ≡ rest }
        ensures dropped { (text rest : List ℕ) → BeginsWith (kind_of self.old) (received_in self.old).held text rest
            → (received_in self.new).dropped
            ≡ min ((received_in self.old).dropped + length (frame (kind_of self.old) text)) last_place }
    {
        match self {
            Lane::Up(packets) => packets.drop_front(),
            Lane::Down(commands) => commands.drop_front(),
        }
    }
}
