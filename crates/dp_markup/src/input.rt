//! The bytes that are still to be read.

ghost use Rattle.std.specs.Prelude.{◌≡◌, ◌+◌, ◌<◌, ◌≤◌, ◌^◌, length, drop, true, IfSome};
ghost use Rattle.dp_markup.specs.Classes as class;
ghost use Rattle.std.specs.List.{prefix_len};
ghost use Rattle.dp_markup.specs.Rules.{passing};
ghost use Rattle.dp_markup.specs.inner.Input as read;
ghost use Rattle.dp_markup.specs.inner.Input.{Reads, ReadsSlice, head, next};
ghost use Rattle.dp_markup.specs.inner.Readers as spec;

use crate::classes::{is_name_byte, is_name_start, is_quote, is_white};
use dp_grammar::Refusal;
use memchr::memmem;
use std::marker::Model;

/// The bytes that are still to be read.
#[derive(Drop)]
pub(crate) struct Input<'a> {
    rest: &'a [u8],
}

impl<'a> Model for Input<'a> {
    ghost use Rattle.std.specs.Prelude.{List, ℕ};

    ghost Value = { List ℕ };

    ghost view = { λ i. i.rest.now };
}

impl<'a> Input<'a> {
    /// These bytes, all still to be read.
    pub(crate) fn new(rest: &'a [u8]) -> Input<'a>
        ensures { result ≡ rest.now }
    {
        Input { rest }
    }

    /// How many bytes are left.
    pub(crate) fn left(&self) -> usize
        ensures count { result ≡ length self.now }
        ensures small { result < 2 ^ 63 }
    {
        self.rest.len()
    }

    /// The refusal that names the next byte, or the end.
    pub(crate) fn refuse(&self) -> Refusal
        ensures { result ≡ Refusal.Unexpected (length self.now) }
    {
        Refusal::Unexpected(self.rest.len())
    }

    /// The next byte.
    pub(crate) fn peek(&self) -> Option<u8>
        ensures { result ≡ head self.now }
    {
        self.rest.first().copied()
    }

    /// Whether a byte is left.
    pub(crate) fn has_more(&self) -> bool
        ensures { result ≡ next (λ _. true) (head self.now) }
    {
        self.peek().is_some()
    }

    /// Whether this byte comes next.
    pub(crate) fn sees(&self, byte: u8) -> bool
        ensures { result ≡ next (spec.same byte) (head self.now) }
    {
        match self.peek() {
            Some(first) => first == byte,
            None => false,
        }
    }

    /// Whether white space comes next.
    pub(crate) fn sees_white(&self) -> bool
        ensures { result ≡ next class.is_white (head self.now) }
    {
        match self.peek() {
            Some(first) => is_white(first),
            None => false,
        }
    }

    /// Whether a quote of either kind comes next.
    pub(crate) fn sees_quote(&self) -> bool
        ensures { result ≡ next class.is_quote (head self.now) }
    {
        match self.peek() {
            Some(first) => is_quote(first),
            None => false,
        }
    }

    /// Whether a byte that may begin a name comes next.
    pub(crate) fn sees_name(&self) -> bool
        ensures { result ≡ next class.is_name_start (head self.now) }
    {
        match self.peek() {
            Some(first) => is_name_start(first),
            None => false,
        }
    }

    /// Passes the next byte.
    pub(crate) fn skip(&mut self)
        ensures { self.new ≡ drop 1 self.old }
    {
        if let [_, rest @ ..] = self.rest {
            self.rest = rest;
        }
    }

    /// This byte.
    pub(crate) fn mark(&mut self, byte: u8) -> Result<u8, Refusal>
        ensures { Reads (read.mark byte self.old) result self.new }
    {
        match self.rest {
            [first, rest @ ..] => {
                if *first == byte {
                    self.rest = rest;
                    Ok(*first)
                } else {
                    Err(self.refuse())
                }
            }
            [] => Err(self.refuse()),
        }
    }

    /// A byte of white space.
    pub(crate) fn white(&mut self) -> Result<u8, Refusal>
        ensures { Reads (read.one (passing class.is_white) self.old) result self.new }
    {
        match self.rest {
            [first, rest @ ..] => {
                if is_white(*first) {
                    self.rest = rest;
                    Ok(*first)
                } else {
                    Err(self.refuse())
                }
            }
            [] => Err(self.refuse()),
        }
    }

    /// A quote of either kind.
    pub(crate) fn quote(&mut self) -> Result<u8, Refusal>
        ensures { Reads (read.one (passing class.is_quote) self.old) result self.new }
    {
        match self.rest {
            [first, rest @ ..] => {
                if is_quote(*first) {
                    self.rest = rest;
                    Ok(*first)
                } else {
                    Err(self.refuse())
                }
            }
            [] => Err(self.refuse()),
        }
    }

    /// These bytes.
    #[tactic(auto, unfolding(crate::specs::inner::Input::word))]
    pub(crate) fn word(&mut self, bytes: &[u8]) -> Result<(), Refusal>
        ensures { Reads (read.word bytes.now self.old) result self.new }
    {
        for byte in bytes {
            self.mark(*byte)?;
        }
        Ok(())
    }

    /// A name, without a copy.
    #[tactic(auto, unfolding(crate::specs::inner::Readers::name, crate::specs::inner::Input::refuse))]
    pub(crate) fn name(&mut self) -> Result<&'a [u8], Refusal>
        ensures { ReadsSlice (spec.name self.old) result self.new }
    {
        if !self.sees_name() {
            return Err(self.refuse());
        }
        let (name, rest) = self.rest.split_at(name_len(self.rest));
        self.rest = rest;
        Ok(name)
    }

    /// The bytes up to the first place where the mark stands, and the mark.
    #[tactic(auto, unfolding(crate::specs::inner::Readers::up_to, crate::specs::inner::Readers::cut))]
    pub(crate) fn up_to(&mut self, mark: &[u8]) -> Result<&'a [u8], Refusal>
        ensures { ReadsSlice (spec.up_to mark.now self.old) result self.new }
    {
        let Some(at) = mark_place(mark, self.rest) else {
            return Err(Refusal::Unexpected(0));
        };
        let found = &self.rest[..at];
        self.rest = &self.rest[at + mark.len()..];
        Ok(found)
    }
}

/// How many bytes of a name stand at the front.
fn name_len(bytes: &[u8]) -> usize
    ensures count { result ≡ prefix_len class.is_name_byte bytes.now }
    ensures within { result ≤ length bytes.now }
{
    for (i, byte) in bytes.iter().enumerate() {
        if !is_name_byte(*byte) {
            return i;
        }
    }
    bytes.len()
}

/// The first place where the mark stands.
fn mark_place(mark: &[u8], bytes: &[u8]) -> Option<usize>
    ensures place { result ≡ spec.mark_place mark.now bytes.now }
    ensures within { IfSome result (λ at. at + length mark.now ≤ length bytes.now) }
{
    memmem::find(bytes, mark)
}
