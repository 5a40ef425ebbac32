//! Where a text is put: into memory, or into a count of bytes that ends at 0.

ghost use Rattle.std.specs.Prelude.{◌≡◌, ◌∷◌, [], None, Some, IsTrue, OnOk};
ghost use Rattle.dp_markup.specs.Escapes.{decimal, escaped, escaped_all, plain_or_number};
ghost use Rattle.dp_markup.specs.Outputs.{Written, behind};
ghost use Rattle.dp_markup.specs.Texts.{attribute_text};

use crate::Memory;
use std::alloc::Global;
use std::convert::Infallible;

/// What a text is put into.
pub trait Output {
    /// Why bytes are not put.
    type Error;

    ghost seen: { Self → Written };

    /// Puts bytes behind others.
    fn put(&mut self, bytes: &[u8]) -> Result<(), Self::Error>
        ensures { OnOk result (seen self.new ≡ behind (seen self.old) bytes.now) };
}

/// A text in memory. The only error is out of memory.
#[derive(Drop)]
pub struct TextOutput {
    pub alloc: Global,
    pub text: Vec<u8>,
}

impl Output for TextOutput {
    type Error = Memory;

    ghost seen = { λ s. record { text = Some s.text.items; left = 0 } };

    fn put(&mut self, bytes: &[u8]) -> Result<(), Memory> {
        match bytes {
            [byte] => match self.text.push(*byte) {
                Ok(()) => Ok(()),
                Err(_) => Err(Memory),
            },
            _ => self.text.extend_from_slice(bytes),
        }
    }
}

/// How many bytes are left of a count. There is no error: at 0 nothing more is counted.
#[derive(Debug, Drop)]
pub struct Counter {
    pub left: u64,
}

impl Output for Counter {
    type Error = Infallible;

    ghost seen = { λ s. record { text = None; left = s.left } };

    fn put(&mut self, bytes: &[u8]) -> Result<(), Infallible> {
        self.left = self.left.saturating_sub(bytes.len() as u64);
        Ok(())
    }
}

/// Puts ` name="value"`, with references in the value.
pub fn put_attribute<O: Output>(out: &mut O, name: &[u8], value: &[u8]) -> Result<(), O::Error>
    ensures { OnOk result (O.seen out.new ≡ behind (O.seen out.old) (attribute_text (name.now, value.now))) }
{
    out.put(b" ")?;
    out.put(name)?;
    out.put(b"=\"")?;
    put_escaped(out, value)?;
    out.put(b"\"")
}

/// Puts bytes, each by itself or as a reference. Those that stand for themselves are put together.
pub fn put_escaped<O: Output>(out: &mut O, bytes: &[u8]) -> Result<(), O::Error>
    ensures { OnOk result (O.seen out.new ≡ behind (O.seen out.old) (escaped_all bytes.now)) }
{
    let mut from = 0;
    for at in 0..bytes.len() {
        if !is_plain(bytes[at]) {
            out.put(&bytes[from..at])?;
            put_byte(out, bytes[at])?;
            from = at + 1;
        }
    }
    out.put(&bytes[from..])
}

/// Whether a byte stands for itself.
fn is_plain(byte: u8) -> bool
    ensures { IsTrue result → escaped byte ≡ byte ∷ [] }
{
    match byte {
        b'&' | b'<' | b'>' | b'"' | b'\'' => false,
        _ => byte >= 0x20 && byte <= 0x7e,
    }
}

/// Puts a byte by itself, or as a reference where it is no plain one.
fn put_byte<O: Output>(out: &mut O, byte: u8) -> Result<(), O::Error>
    ensures { OnOk result (O.seen out.new ≡ behind (O.seen out.old) (escaped byte)) }
{
    match byte {
        b'&' => out.put(b"&amp;"),
        b'<' => out.put(b"&lt;"),
        b'>' => out.put(b"&gt;"),
        b'"' => out.put(b"&quot;"),
        b'\'' => out.put(b"&#39;"),
        _ => put_plain_or_number(out, byte),
    }
}

/// Puts a byte from 0x20 to 0x7e by itself, and any other as a reference by number.
fn put_plain_or_number<O: Output>(out: &mut O, byte: u8) -> Result<(), O::Error>
    ensures { OnOk result (O.seen out.new ≡ behind (O.seen out.old) (plain_or_number byte)) }
{
    if byte < 0x20 || byte > 0x7e {
        out.put(b"&#")?;
        put_decimal(out, byte)?;
        out.put(b";")
    } else {
        out.put(&[byte])
    }
}

/// Puts a number of at most 255 in decimal.
fn put_decimal<O: Output>(out: &mut O, number: u8) -> Result<(), O::Error>
    ensures { OnOk result (O.seen out.new ≡ behind (O.seen out.old) (decimal number)) }
{
    let tens = [b'0' + number / 10 % 10, b'0' + number % 10];
    if number >= 100 {
        let all = [
            b'0' + number / 100,
            b'0' + number / 10 % 10,
            b'0' + number % 10,
        ];
        out.put(&all)
    } else if number >= 10 {
        out.put(&tens)
    } else {
        out.put(&[b'0' + number])
    }
}
