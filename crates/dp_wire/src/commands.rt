//! A stream split into commands.

ghost use Rattle.std.specs.Prelude.{◌≡◌, ◌↔◌, ◌+◌, ◌≤◌, [], ◌∷◌, ◌++◌, List, ℕ, min, length, take, drop};
ghost use Rattle.std.specs.Prelude.{IsErr, IfOk, IfErr, IfSome, OnOk, OnErr};
ghost use Rattle.dp_wire.specs.Frames.{command_frame, command_limit, BeginsCommand, IsPartialCommand, BeginsNoCommand};
ghost use Rattle.dp_wire.specs.Frames.{commands_in, FirstNul};
ghost use Rattle.dp_wire.specs.Received.{last_place};

use crate::WireError;
use crate::held::Held;
use crate::nuls::first_nul;
use dp_bytes::Memory;
use std::alloc::Global;
use std::marker::Model;
use std::ops::Range;

/// The most bytes of a command, without its NUL.
pub const COMMAND_LIMIT: usize = 1_048_576;

/// One byte more than a command may have.
const TOO_LONG: WireError = WireError::TooLong {
    length: COMMAND_LIMIT as u64 + 1,
};

/// Splits a stream into commands, each ended by a NUL. Contracts see the bytes that are held, and how many were dropped
/// before them.
///
/// DBGp 1.0, "Message Packets". A byte is looked at once, however the stream is cut.
#[derive(Debug, Drop)]
pub struct Commands {
    /// What was fed and not dropped.
    bytes: Held,
    /// The length of the first text that is held with its NUL.
    first: Option<usize>,
    /// How many bytes of the stream were dropped, or the largest number where they are more.
    dropped: u64,
}

impl Model for Commands {
    ghost use Rattle.dp_wire.specs.Frames.{FirstNul};
    ghost use Rattle.dp_wire.specs.Received.{Received};

    ghost Value = { Received };

    ghost view = { λ c. record { held = c.bytes; dropped = c.dropped } };

    ghost invariant = { λ c. FirstNul c.bytes c.first };
}

impl Commands {
    /// A splitter that holds no byte. Takes no memory.
    pub fn new(alloc: Global) -> Self
        ensures held { result.held ≡ [] }
        ensures dropped { result.dropped ≡ 0 }
    {
        Commands {
            bytes: Held::new(alloc),
            first: None,
            dropped: 0,
        }
    }

    /// The bytes held.
    pub fn bytes(&self) -> &[u8]
        ensures { result.now ≡ self.now.held }
    {
        self.bytes.as_slice()
    }

    /// How many bytes of the stream were dropped: the place of the first byte held. Stays at 2^64 - 1. Takes no memory.
    pub fn dropped(&self) -> u64
        ensures { result ≡ self.now.dropped }
    {
        self.dropped
    }

    /// Appends a piece of the stream. If memory runs out all stays as before.
    pub fn feed(&mut self, piece: &[u8]) -> Result<(), Memory>
        ensures ok { OnOk result (self.new.held ≡ self.old.held ++ piece.now) }
        ensures dropped { self.new.dropped ≡ self.old.dropped }
        ensures err { OnErr result (self.new ≡ self.old) }
    {
        let first = first_with(self.first, self.bytes(), piece);
        self.bytes.append(piece)?;
        self.first = first;
        Ok(())
    }

    /// The range of the first command among the bytes held, without its NUL. `None` where more has to come.
    ///
    /// `TooLong` with the length 1,048,577 where no command begins the bytes held. Takes no memory.
    pub fn next(&self) -> Result<Option<Range<usize>>, WireError>
        ensures start { IfOk result (λ found. IfSome found (λ range. range.start ≡ 0)) }
        ensures whole { IfOk result (λ found. IfSome found (λ range.
            BeginsCommand self.now.held (take range.end self.now.held) (drop (range.end + 1) self.now.held))) }
        ensures partial { (result ≡ Ok None) ↔ IsPartialCommand self.now.held }
        ensures refused { IsErr result ↔ BeginsNoCommand self.now.held }
        ensures length { IfErr result (λ e. e ≡ WireError.TooLong (command_limit + 1)) }

        // What stands there stays, whatever comes after it.
        ensures first { IfOk result (λ found. IfSome found (λ range. (more : List ℕ)
            → commands_in (self.now.held ++ more) ≡ take range.end self.now.held
            ∷ commands_in (drop (range.end + 1) self.now.held ++ more))) }
        ensures none { result ≡ Ok None → commands_in self.now.held ≡ [] }
        ensures never { IsErr result → (more : List ℕ) → commands_in (self.now.held ++ more) ≡ [] }

        // Where more has to come, no more than the limit is held.
        ensures held { result ≡ Ok None → length self.now.held ≤ command_limit }
    {
        match self.first {
            Some(length) if length <= COMMAND_LIMIT => Ok(Some(0..length)),
            Some(_) => Err(TOO_LONG),
            None if self.bytes().len() <= COMMAND_LIMIT => Ok(None),
            None => Err(TOO_LONG),
        }
    }

    /// Drops the first command with its NUL. Takes no memory.
    pub fn drop_front(&mut self)
        requires { (line rest : List ℕ) × BeginsCommand self.old.held line rest }
        ensures held { (line rest : List ℕ) → BeginsCommand self.old.held line rest → self.new.held ≡ rest }
        ensures dropped { (line rest : List ℕ) → BeginsCommand self.old.held line rest
            → self.new.dropped ≡ min (self.old.dropped + length (command_frame line)) last_place }
    {
        match self.first {
            Some(length) => {
                let next = first_nul(&self.bytes()[length + 1..]);
                self.bytes.advance(length + 1);
                self.first = next;
                self.dropped = self.dropped.saturating_add(length as u64 + 1);
            }
            None => unreachable!(),
        }
    }
}

/// The place of the first NUL once the piece follows what is held.
fn first_with(first: Option<usize>, held: &[u8], piece: &[u8]) -> Option<usize>
    requires { FirstNul held.now first }
    ensures { FirstNul (held.now ++ piece.now) result }
{
    match first {
        Some(place) => Some(place),
        None => match first_nul(piece) {
            Some(place) => Some(held.len() + place),
            None => None,
        },
    }
}
