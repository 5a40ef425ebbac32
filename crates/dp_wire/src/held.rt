//! Bytes that are fed at their end and dropped at their front.

ghost use Rattle.std.specs.Prelude.{◌≡◌, ◌≤◌, [], ◌++◌, List, ℕ, length, drop, IfOk, OnOk, OnErr};

use dp_bytes::Memory;
use std::alloc::Global;
use std::marker::Model;

/// The bytes of a stream that were fed and not dropped. Contracts see these.
///
/// It has no limit of its own: who holds a stream refuses what passes one.
#[derive(Debug, Drop)]
pub struct Held {
    alloc: Global,
    /// What was fed; the bytes before `from` were dropped.
    bytes: Vec<u8>,
    from: usize,
}

impl Model for Held {
    ghost use Rattle.std.specs.Prelude.{◌≤◌, List, ℕ, length, drop};

    ghost Value = { List ℕ };

    ghost view = { λ h. drop h.from h.bytes.items };

    ghost invariant = { λ h. h.from ≤ length h.bytes.items };
}

impl Held {
    /// Holds no byte. Takes no memory.
    pub fn new(alloc: Global) -> Self
        ensures { result ≡ [] }
    {
        Held {
            alloc,
            bytes: Vec::new(alloc),
            from: 0,
        }
    }

    /// The bytes held. Takes no memory.
    pub fn as_slice(&self) -> &[u8]
        ensures { result.now ≡ self.now }
    {
        &self.bytes[self.from..]
    }

    /// Appends a piece. If memory runs out all stays as before.
    ///
    /// Copies the piece. Where at least half of the buffer was dropped, what is left of it is copied too, at no more
    /// than the cost of what went.
    pub fn append(&mut self, piece: &[u8]) -> Result<(), Memory>
        ensures ok { OnOk result (self.new ≡ self.old ++ piece.now) }
        ensures err { OnErr result (self.new ≡ self.old) }
    {
        if self.bytes.len() - self.from <= self.from {
            self.bytes = joined(self.as_slice(), piece, self.alloc)?;
            self.from = 0;
        } else {
            self.bytes.extend_from_slice(piece)?;
        }
        Ok(())
    }

    /// Drops so many bytes from the front. Takes no memory, and moves no byte.
    pub fn advance(&mut self, count: usize)
        requires { count ≤ length self.old }
        ensures { self.new ≡ drop count self.old }
    {
        self.from += count;
    }
}

/// Two pieces behind one another, in a vector of their own.
fn joined(first: &[u8], second: &[u8], alloc: Global) -> Result<Vec<u8>, Memory>
    ensures { IfOk result (λ bytes. bytes.items ≡ first.now ++ second.now) }
{
    let mut bytes = Vec::new(alloc);
    bytes.extend_from_slice(first)?;
    bytes.extend_from_slice(second)?;
    Ok(bytes)
}
