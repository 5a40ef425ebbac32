//! Bytes in memory that come at looks of given numbers.
ghost use Rattle.std.specs.Prelude.{◌≡◌, ◌-◌, ◌^◌, ◌≤◌, ◌++◌, [], true, false, length, min, take};
ghost use Rattle.dp_polled.specs.Arrivals.{arrivals_of, bytes_of, first_bytes, is_silent, is_there, less, next};

use std::marker::Model;

/// Arrivals, and how far they were given. Contracts see those still to come and the bytes given.
#[derive(Debug, Drop)]
pub(crate) struct Arrivals {
    /// Each with the number of the look from which on it is there.
    all: Vec<(u64, Vec<u8>)>,
    /// How many of them are over.
    first: usize,
    /// How many bytes of the next one were given.
    at: usize,
}

impl Model for Arrivals {
    ghost use Rattle.std.specs.Prelude.{◌≤◌, drop, take, vec_len};
    ghost use Rattle.dp_polled.specs.Arrivals.{Coming, arrivals_of};
    ghost use Rattle.dp_polled.specs.inner.Places.{IsPlace, coming_at};

    ghost Value = { Coming };

    ghost view = { λ a. coming_at (arrivals_of (take a.first a.all.items)) (arrivals_of (drop a.first a.all.items))
        a.at };

    ghost invariant = { λ a. (a.first ≤ vec_len a.all) × IsPlace (arrivals_of (drop a.first a.all.items)) a.at };
}

impl Arrivals {
    /// Nothing was given yet.
    pub(crate) fn new(all: Vec<(u64, Vec<u8>)>) -> Self
        ensures left { result.left ≡ arrivals_of all.items }
        ensures given { result.given ≡ [] }
    {
        Arrivals {
            all,
            first: 0,
            at: 0,
        }
    }

    /// Whether the next one has no bytes left and is not the last.
    fn is_silent(&self) -> bool
        ensures { result ≡ is_silent self.now.left }
    {
        match &self.all[self.first..] {
            [] => false,
            [_] => false,
            [arrival, ..] => arrival.1.len() - self.at == 0,
        }
    }

    /// Whether the next one is there at the look of this number. At the greatest number each one is.
    pub(crate) fn is_there(&self, number: u64) -> bool
        ensures there { result ≡ is_there number self.now.left }
        ensures greatest { number ≡ 2 ^ 64 - 1 → result ≡ true }
    {
        match &self.all[self.first..] {
            [] => true,
            [arrival, ..] => arrival.0 <= number,
        }
    }

    /// The bytes of the next one that are left.
    fn first_bytes(&self) -> &[u8]
        ensures { result.now ≡ first_bytes self.now.left }
    {
        match &self.all[self.first..] {
            [] => &[],
            [arrival, ..] => &arrival.1[self.at..],
        }
    }

    /// So many bytes more of the next one were given. One that has none left is over.
    fn advance(&mut self, count: usize)
        requires { count ≤ length (first_bytes self.old.left) }
        ensures left { self.new.left ≡ less count self.old.left }
        ensures given { self.new.given ≡ self.old.given ++ take count (first_bytes self.old.left) }
    {
        let size = match &self.all[self.first..] {
            [] => return,
            [arrival, ..] => arrival.1.len(),
        };
        if count < size - self.at {
            self.at += count;
        } else {
            self.first += 1;
            self.at = 0;
        }
    }

    /// Goes past those that say nothing.
    pub(crate) fn skip(&mut self)
        ensures left { self.new.left ≡ next self.old.left }
        ensures given { self.new.given ≡ self.old.given }
        ensures bytes { bytes_of self.new.left ≡ bytes_of self.old.left }
        ensures not_silent { is_silent self.new.left ≡ false }
    {
        'silent: while self.is_silent() {
            self.advance(0);
        }
    }

    /// How many bytes of the next one are left.
    pub(crate) fn first_length(&self) -> usize
        ensures { result ≡ length (first_bytes self.now.left) }
    {
        self.first_bytes().len()
    }

    /// Puts bytes of the next one at the front of `buf`, as far as they go into it, and answers their number. One that
    /// has none left is over.
    pub(crate) fn give(&mut self, buf: &mut [u8]) -> usize
        ensures count { result ≡ min (length buf.old) (length (first_bytes self.old.left)) }
        ensures left { self.new.left ≡ less result self.old.left }
        ensures given { self.new.given ≡ self.old.given ++ take result buf.new }
        ensures bytes { bytes_of self.old.left ≡ take result buf.new ++ bytes_of self.new.left }
        ensures bound { result ≤ length buf.new }
    {
        let bytes = self.first_bytes();
        let count = buf.len().min(bytes.len());
        buf[..count].copy_from_slice(&bytes[..count]);
        self.advance(count);
        count
    }
}
