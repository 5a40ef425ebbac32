//! References to bytes.

ghost use Rattle.std.specs.Prelude.{◌≡◌, ◌+◌, ◌-◌};
ghost use Rattle.dp_markup.specs.Classes as class;
ghost use Rattle.dp_markup.specs.Rules.{passing};
ghost use Rattle.dp_markup.specs.inner.Input.{Reads, closed, one};
ghost use Rattle.dp_markup.specs.inner.Readers as spec;
ghost use Rattle.dp_markup.specs.inner.Readers.{behind_of};

use crate::classes::{is_plain_in_text, is_plain_in_value};
use crate::input::Input;
use crate::states::Radix;
use dp_grammar::Refusal;
use std::ops::ControlFlow;

/// The number that the decimal digit makes behind this one, up to 255.
#[tactic(auto, unfolding(crate::specs::Classes::decimal_behind))]
fn decimal_behind(number: u8, digit: u8) -> Option<u8>
    ensures { result ≡ class.decimal_behind number digit }
{
    if b'0' <= digit && digit <= b'9' {
        within_byte(u16::from(number) * 10 + u16::from(digit - b'0'))
    } else {
        None
    }
}

/// The number as a byte, where it is at most 255.
fn within_byte(number: u16) -> Option<u8>
    ensures { result ≡ class.within_byte number }
{
    if number <= 255 {
        Some(number as u8)
    } else {
        None
    }
}

/// The number that the hexadecimal digit makes behind this one, up to 255.
#[tactic(auto, unfolding(crate::specs::Classes::hexadecimal_behind))]
fn hexadecimal_behind(number: u8, digit: u8) -> Option<u8>
    ensures { result ≡ class.hexadecimal_behind number digit }
{
    if b'0' <= digit && digit <= b'9' {
        within_byte(u16::from(number) * 16 + u16::from(digit - b'0'))
    } else if b'a' <= digit && digit <= b'f' {
        within_byte(u16::from(number) * 16 + u16::from(digit - 87))
    } else if b'A' <= digit && digit <= b'F' {
        within_byte(u16::from(number) * 16 + u16::from(digit - 55))
    } else {
        None
    }
}

/// The number that the digit of this radix makes behind this one, up to 255.
fn digit_behind(radix: Radix, number: u8, digit: u8) -> Option<u8>
    ensures { result ≡ behind_of radix number digit }
{
    match radix {
        Radix::Decimal => decimal_behind(number, digit),
        Radix::Hexadecimal => hexadecimal_behind(number, digit),
    }
}

impl<'a> Input<'a> {
    /// A digit, for the number that it makes behind this one.
    fn digit(&mut self, radix: Radix, number: u8) -> Result<u8, Refusal>
        ensures { Reads (one (behind_of radix number) self.old) result self.new }
    {
        let Some(byte) = self.peek() else {
            return Err(self.refuse());
        };
        match digit_behind(radix, number, byte) {
            Some(more) => {
                self.skip();
                Ok(more)
            }
            None => Err(self.refuse()),
        }
    }

    /// Reads the `;` that ends a number, or one more digit of it; refuses a digit that makes it greater than 255.
    #[tactic(auto, unfolding(crate::specs::inner::Readers::number_step))]
    fn number_step(&mut self, radix: Radix, number: u8) -> Result<ControlFlow<u8, u8>, Refusal>
        ensures { Reads (spec.number_step (behind_of radix) number self.old) result self.new }
    {
        if self.sees(b';') {
            self.mark(b';')?;
            Ok(ControlFlow::Break(number))
        } else {
            Ok(ControlFlow::Continue(self.digit(radix, number)?))
        }
    }

    /// Reads the rest of a number, behind what was read of it, and its `;`.
    #[tactic(auto, using(dp_grammar::proofs::Turns::turns))]
    fn number_from(&mut self, radix: Radix, first: u8) -> Result<u8, Refusal>
        ensures { Reads (closed (spec.number_step (behind_of radix)) first self.old) result self.new }
    {
        let mut state = first;
        for _turn in 0..self.left() + 1 {
            match self.number_step(radix, state)? {
                ControlFlow::Continue(more) => state = more,
                ControlFlow::Break(all) => return Ok(all),
            }
        }
        Err(self.refuse())
    }

    /// Reads a number of one digit or more in this radix, and its `;`; refuses one greater than 255.
    #[tactic(auto, unfolding(crate::specs::inner::Readers::number))]
    fn number(&mut self, radix: Radix) -> Result<u8, Refusal>
        ensures { Reads (spec.number (behind_of radix) self.old) result self.new }
    {
        let first = self.digit(radix, 0)?;
        self.number_from(radix, first)
    }

    /// Reads the number of a reference behind its `&#`, hexadecimal behind an `x` and else decimal.
    #[tactic(auto, unfolding(crate::specs::inner::Readers::by_number))]
    fn by_number(&mut self) -> Result<u8, Refusal>
        ensures { Reads (spec.by_number self.old) result self.new }
    {
        if self.sees(b'x') {
            self.mark(b'x')?;
            self.number(Radix::Hexadecimal)
        } else {
            self.number(Radix::Decimal)
        }
    }

    /// The rest of a name of a byte, and the byte.
    #[tactic(auto, unfolding(crate::specs::inner::Readers::named))]
    fn named(&mut self, rest: &[u8], byte: u8) -> Result<u8, Refusal>
        ensures { Reads (spec.named rest.now byte self.old) result self.new }
    {
        self.word(rest)?;
        Ok(byte)
    }

    /// Reads the rest of `amp;` or `apos;` behind its `a`, for the byte that is named so.
    #[tactic(auto, unfolding(crate::specs::inner::Readers::by_a))]
    fn by_a(&mut self) -> Result<u8, Refusal>
        ensures { Reads (spec.by_a self.old) result self.new }
    {
        if self.sees(b'm') {
            self.named(b"mp;", b'&')
        } else {
            self.named(b"pos;", b'\'')
        }
    }

    /// Reads a reference behind its `&`, by number or by one of the five names; refuses any other name.
    #[tactic(auto, unfolding(crate::specs::inner::Readers::entity))]
    fn entity(&mut self) -> Result<u8, Refusal>
        ensures { Reads (spec.entity self.old) result self.new }
    {
        if self.sees(b'#') {
            self.mark(b'#')?;
            self.by_number()
        } else if self.sees(b'a') {
            self.mark(b'a')?;
            self.by_a()
        } else if self.sees(b'l') {
            self.named(b"lt;", b'<')
        } else if self.sees(b'g') {
            self.named(b"gt;", b'>')
        } else {
            self.named(b"quot;", b'"')
        }
    }

    /// A reference to a byte.
    #[tactic(auto, unfolding(crate::specs::inner::Readers::reference))]
    fn reference(&mut self) -> Result<u8, Refusal>
        ensures { Reads (spec.reference self.old) result self.new }
    {
        self.mark(b'&')?;
        self.entity()
    }

    /// Reads a byte that stands for itself in a value in such quotes; refuses any other.
    fn plain_in_value(&mut self, quote: u8) -> Result<u8, Refusal>
        ensures { Reads (one (passing (class.is_plain_in_value quote)) self.old) result self.new }
    {
        let Some(byte) = self.peek() else {
            return Err(self.refuse());
        };
        if is_plain_in_value(quote, byte) {
            self.skip();
            Ok(byte)
        } else {
            Err(self.refuse())
        }
    }

    /// Reads a byte that stands for itself in a text; refuses any other.
    fn plain_in_text(&mut self) -> Result<u8, Refusal>
        ensures { Reads (one (passing class.is_plain_in_text) self.old) result self.new }
    {
        let Some(byte) = self.peek() else {
            return Err(self.refuse());
        };
        if is_plain_in_text(byte) {
            self.skip();
            Ok(byte)
        } else {
            Err(self.refuse())
        }
    }

    /// A byte of a value, by itself or by a reference.
    #[tactic(auto, unfolding(crate::specs::inner::Readers::value_byte))]
    pub(crate) fn value_byte(&mut self, quote: u8) -> Result<u8, Refusal>
        ensures { Reads (spec.value_byte quote self.old) result self.new }
    {
        if self.sees(b'&') {
            self.reference()
        } else {
            self.plain_in_value(quote)
        }
    }

    /// A byte of a text, by itself or by a reference.
    #[tactic(auto, unfolding(crate::specs::inner::Readers::content_byte))]
    pub(crate) fn content_byte(&mut self) -> Result<u8, Refusal>
        ensures { Reads (spec.content_byte self.old) result self.new }
    {
        if self.sees(b'&') {
            self.reference()
        } else {
            self.plain_in_text()
        }
    }
}
