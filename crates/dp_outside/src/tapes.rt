//! Bytes that come in pieces of given sizes.
ghost use Rattle.std.specs.Prelude.{◌≡◌, ◌<◌, ◌≤◌, [], length, take};
ghost use Rattle.dp_outside.specs.Fakes.{after_piece, next_cut, piece_length, whole_tape};

use std::marker::Model;

/// Bytes that are given in pieces of given sizes. Contracts see the bytes given, those left and the sizes to come.
#[derive(Debug, Drop)]
pub(crate) struct Pieces {
    bytes: Vec<u8>,
    at: usize,
    cuts: Vec<usize>,
    used: usize,
}

impl Model for Pieces {
    ghost use Rattle.std.specs.Prelude.{◌≤◌, drop, take, vec_len};
    ghost use Rattle.dp_outside.specs.Fakes.{Tape};

    ghost Value = { Tape };

    ghost view = { λ p. record {
      given = take p.at p.bytes.items;
      left = drop p.at p.bytes.items;
      cuts = drop p.used p.cuts.items;
    } };

    ghost invariant = { λ p. (p.at ≤ vec_len p.bytes) × (p.used ≤ vec_len p.cuts) };
}

/// The size of the next piece for a buffer of `room` bytes, and 0 counts as 1.
fn size_of_next(cuts: &[usize], room: usize) -> usize
    ensures { result ≡ next_cut cuts.now room }
{
    match cuts {
        [] => room,
        [cut, ..] => (*cut).max(1).min(room),
    }
}

impl Pieces {
    /// Nothing was given yet.
    pub(crate) fn new(bytes: Vec<u8>, cuts: Vec<usize>) -> Self
        ensures { result ≡ whole_tape bytes.items cuts.items }
    {
        Pieces {
            bytes,
            at: 0,
            cuts,
            used: 0,
        }
    }

    /// The bytes that are left.
    pub(crate) fn left(&self) -> &[u8]
        ensures { result.now ≡ self.now.left }
    {
        &self.bytes[self.at..]
    }

    /// Puts the next piece at the front of `buf` and answers its length.
    pub(crate) fn give(&mut self, buf: &mut [u8]) -> usize
        ensures piece { result ≡ piece_length self.old (length buf.old) }
        ensures after { self.new ≡ after_piece self.old result }
        ensures bound { result ≤ length buf.new }
        ensures bytes { take result buf.new ≡ take result self.old.left }
        ensures end { result ≡ 0 → 0 < length buf.new → self.new.left ≡ [] }
    {
        let size = size_of_next(&self.cuts[self.used..], buf.len());
        let count = size.min(self.bytes.len() - self.at);
        let end = self.at + count;
        buf[..count].copy_from_slice(&self.bytes[self.at..end]);
        self.at = end;
        if self.used < self.cuts.len() {
            self.used += 1;
        }
        count
    }
}
