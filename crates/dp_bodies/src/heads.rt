//! The head that stands before a body.

ghost use Rattle.std.specs.Prelude.{◌++◌};
ghost use Rattle.dp_bodies.specs.Frames.{length_name};
ghost use Rattle.dp_bodies.specs.inner.Heads.{Agrees, AreDigits, IsHead};

use dp_wire::next_digit;

/// The most bytes of a body that is read.
pub const BODY_LIMIT: usize = 16_777_216;

/// What stands before the length.
pub(crate) const LENGTH_NAME: &[u8] = b"Content-Length: ";

/// The end of the line, and an empty line.
pub(crate) const HEAD_END: &[u8] = b"\r\n\r\n";

/// How far bytes agree with what is wanted at their front.
#[derive(Clone, Copy, Debug)]
pub(crate) enum Agreement {
    /// All of it stands there.
    Whole,
    /// The bytes are a proper front of it.
    Front,
    /// The first byte that is another one.
    Differs { index: usize },
}

/// What bytes say of a number at their front.
#[derive(Clone, Copy, Debug)]
pub(crate) enum Digits {
    /// Digits alone, or nothing yet.
    Unfinished,
    /// No number begins with the first byte.
    None,
    /// The number, and the place behind its digits, where another byte stands.
    Known { end: usize, number: usize },
    /// The number of the first digits that pass the limit.
    Passed { number: u64 },
}

/// What bytes say of the first head.
#[derive(Clone, Copy, Debug)]
pub(crate) enum Head {
    /// More has to come.
    Unfinished,
    /// The length of the body, and where it starts.
    Known { start: usize, length: usize },
    /// The index of the first byte with which no head begins.
    Bad { index: usize },
    /// The number of the first digits that pass the limit.
    Passed { length: u64 },
}

/// How far the bytes agree with what is wanted.
fn compared(bytes: &[u8], wanted: &[u8]) -> Agreement
    ensures { Agrees bytes.now wanted.now result }
{
    for (index, byte) in wanted.iter().enumerate() {
        if bytes.len() <= index {
            return Agreement::Front;
        }
        if bytes[index] != *byte {
            return Agreement::Differs { index };
        }
    }
    Agreement::Whole
}

/// Reads a number at the front of the bytes. Looks at nine bytes at most.
fn read_digits(bytes: &[u8]) -> Digits
    ensures { AreDigits bytes.now result }
{
    let mut number = 0;
    for (index, byte) in bytes.iter().enumerate() {
        let Some(digit) = next_digit(number, *byte) else {
            if number == 0 {
                return Digits::None;
            }
            return Digits::Known { end: index, number };
        };
        number = 10 * number + digit;
        if number > BODY_LIMIT {
            return Digits::Passed {
                number: number as u64,
            };
        }
    }
    Digits::Unfinished
}

/// Reads what follows a number that ends there.
fn read_end(bytes: &[u8], end: usize, length: usize) -> Head
    requires digits { AreDigits bytes.now (Digits.Known end length) }
    ensures { IsHead (length_name ++ bytes.now) result }
{
    let index = LENGTH_NAME.len() + end;
    match compared(&bytes[end..], HEAD_END) {
        Agreement::Front => Head::Unfinished,
        Agreement::Differs { index: within } => Head::Bad {
            index: index + within,
        },
        Agreement::Whole => Head::Known {
            start: index + HEAD_END.len(),
            length,
        },
    }
}

/// Reads what follows the name of the length.
fn read_length(bytes: &[u8]) -> Head
    ensures { IsHead (length_name ++ bytes.now) result }
{
    match read_digits(bytes) {
        Digits::Unfinished => Head::Unfinished,
        Digits::None => Head::Bad {
            index: LENGTH_NAME.len(),
        },
        Digits::Known { end, number } => read_end(bytes, end, number),
        Digits::Passed { number } => Head::Passed { length: number },
    }
}

/// Reads the head at the front of the bytes. Looks at 29 bytes at most.
pub(crate) fn read_head(bytes: &[u8]) -> Head
    ensures { IsHead bytes.now result }
{
    match compared(bytes, LENGTH_NAME) {
        Agreement::Front => Head::Unfinished,
        Agreement::Differs { index } => Head::Bad { index },
        Agreement::Whole => read_length(&bytes[LENGTH_NAME.len()..]),
    }
}
