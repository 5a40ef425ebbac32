//! A stream split into packets.

ghost use Rattle.std.specs.Prelude.{◌≡◌, ◌↔◌, ◌+◌, ◌-◌, ◌<◌, ◌≤◌, [], ◌∷◌, ◌++◌, List, ℕ, min, length, drop};
ghost use Rattle.std.specs.Prelude.{slice_range, IsErr, IfOk, IfErr, IfSome, OnOk, OnErr};
ghost use Rattle.std.specs.Fmt.{decimal};
ghost use Rattle.dp_wire.specs.Frames.{BeginsPacket, IsPartialPacket, BeginsNoPacket, packet_frame, packet_limit};
ghost use Rattle.dp_wire.specs.Frames.{packets_in};
ghost use Rattle.dp_wire.specs.Received.{IsCause, place_of, last_place};

use crate::WireError;
use crate::held::Held;
use crate::length::{Length, read_length};
use dp_bytes::Memory;
use std::alloc::Global;
use std::marker::Model;
use std::ops::Range;

/// Splits a stream into packets. Contracts see the bytes that are held, and how many were dropped before them.
///
/// DBGp 1.0, "Message Packets". `next` looks at ten bytes at most, however many are held.
#[derive(Debug, Drop)]
pub struct Packets {
    /// What was fed and not dropped.
    bytes: Held,
    /// How many bytes of the stream were dropped, or the largest number where they are more.
    dropped: u64,
}

impl Model for Packets {
    ghost use Rattle.dp_wire.specs.Received.{Received};

    ghost Value = { Received };

    ghost view = { λ p. record { held = p.bytes; dropped = p.dropped } };
}

impl Packets {
    /// A splitter that holds no byte. Takes no memory.
    pub fn new(alloc: Global) -> Self
        ensures held { result.held ≡ [] }
        ensures dropped { result.dropped ≡ 0 }
    {
        Packets {
            bytes: Held::new(alloc),
            dropped: 0,
        }
    }

    /// The bytes held.
    pub fn bytes(&self) -> &[u8]
        ensures { result.now ≡ self.now.held }
    {
        self.bytes.as_slice()
    }

    /// How many bytes of the stream were dropped: the place of the first byte held. Stays at 2^64 - 1. Takes no memory.
    pub fn dropped(&self) -> u64
        ensures { result ≡ self.now.dropped }
    {
        self.dropped
    }

    /// Appends a piece of the stream. If memory runs out all stays as before.
    pub fn feed(&mut self, piece: &[u8]) -> Result<(), Memory>
        ensures ok { OnOk result (self.new.held ≡ self.old.held ++ piece.now) }
        ensures dropped { self.new.dropped ≡ self.old.dropped }
        ensures err { OnErr result (self.new ≡ self.old) }
    {
        self.bytes.append(piece)?;
        Ok(())
    }

    /// The range of the first packet's text among the bytes held. `None` where more has to come.
    ///
    /// A refusal where no packet begins the bytes held. Its offset counts from the first byte of the stream; it is
    /// exact below 2^64 - 1, and stays at that value. Takes no memory.
    pub fn next(&self) -> Result<Option<Range<usize>>, WireError>
        ensures within { IfOk result (λ found. IfSome found (λ range.
            (range.start ≤ range.end) × (range.end < length self.now.held))) }
        ensures start { IfOk result (λ found. IfSome found (λ range.
            range.start ≡ length (decimal (range.end - range.start)) + 1)) }
        ensures whole { IfOk result (λ found. IfSome found (λ range.
            BeginsPacket self.now.held (slice_range self.now.held range.start range.end)
            (drop (range.end + 1) self.now.held))) }
        ensures partial { (result ≡ Ok None) ↔ IsPartialPacket self.now.held }
        ensures refused { IsErr result ↔ BeginsNoPacket self.now.held }
        ensures cause { IfErr result (IsCause self.now) }

        // What stands there stays, whatever comes after it.
        ensures first { IfOk result (λ found. IfSome found (λ range. (more : List ℕ)
            → packets_in (self.now.held ++ more)
            ≡ slice_range self.now.held range.start range.end
            ∷ packets_in (drop (range.end + 1) self.now.held ++ more))) }
        ensures none { result ≡ Ok None → packets_in self.now.held ≡ [] }
        ensures never { IsErr result → (more : List ℕ) → packets_in (self.now.held ++ more) ≡ [] }

        // Where more has to come, no more than eight digits, a NUL and a longest text are held.
        ensures held { result ≡ Ok None → length self.now.held ≤ packet_limit + 9 }
    {
        let held = self.bytes();
        match read_length(held) {
            Length::Unfinished => Ok(None),
            Length::Bad { index } => Err(WireError::BadLength {
                offset: self.place(index),
            }),
            Length::Passed { length } => Err(WireError::TooLong { length }),
            Length::Known { nul, length } => {
                let start = nul + 1;
                let end = start + length;
                if held.len() <= end {
                    Ok(None)
                } else if held[end] == 0 {
                    Ok(Some(start..end))
                } else {
                    Err(WireError::NoNul {
                        offset: self.place(end),
                    })
                }
            }
        }
    }

    /// The place in the stream of the byte held at this index.
    fn place(&self, index: usize) -> u64
        ensures { result ≡ place_of self.now index }
    {
        self.dropped.saturating_add(index as u64)
    }

    /// Drops the first packet with its framing. Takes no memory.
    pub fn drop_front(&mut self)
        requires { (text rest : List ℕ) × BeginsPacket self.old.held text rest }
        ensures held { (text rest : List ℕ) → BeginsPacket self.old.held text rest → self.new.held ≡ rest }
        ensures dropped { (text rest : List ℕ) → BeginsPacket self.old.held text rest
            → self.new.dropped ≡ min (self.old.dropped + length (packet_frame text)) last_place }
    {
        match self.next() {
            Ok(Some(range)) => {
                let count = self.bytes()[..=range.end].len();
                self.bytes.advance(count);
                self.dropped = self.dropped.saturating_add(count as u64);
            }
            Ok(None) => unreachable!(),
            Err(_) => unreachable!(),
        }
    }
}
