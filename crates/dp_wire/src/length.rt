//! The length that stands before the text of a packet.

ghost use Rattle.std.specs.Prelude.{◌≡◌, ◌+◌, ◌<◌, IsNone, IfSome};
ghost use Rattle.dp_wire.specs.Received.{MayFollow};
ghost use Rattle.dp_wire.specs.inner.Lengths.{IsLength};

/// The most bytes of a packet's text.
pub const PACKET_LIMIT: usize = 16_777_216;

/// What bytes say of the length of the first packet's text.
#[derive(Clone, Copy, Debug)]
pub(crate) enum Length {
    /// Digits alone, or nothing yet.
    Unfinished,
    /// The length, and the index of the NUL behind it.
    Known { nul: usize, length: usize },
    /// The index of a byte that no length has there.
    Bad { index: usize },
    /// The number of the first digits that pass the limit.
    Passed { length: u64 },
}

/// Reads the length at the front of the bytes. Looks at nine bytes at most.
pub(crate) fn read_length(bytes: &[u8]) -> Length
    ensures { IsLength bytes.now result }
{
    let mut length = 0;
    for (index, byte) in bytes.iter().enumerate() {
        let byte = *byte;
        let Some(digit) = next_digit(length, byte) else {
            if byte == 0 && length > 0 {
                return Length::Known { nul: index, length };
            }
            return Length::Bad { index };
        };
        length = 10 * length + digit;
        if length > PACKET_LIMIT {
            return Length::Passed {
                length: length as u64,
            };
        }
    }
    Length::Unfinished
}

/// The digit that the byte is, where a length whose digits so far spell this number goes on with it.
///
/// The number is 0 where no digit stands before the byte. A length goes on with 1 to 9, and with 0 behind a first
/// digit; `None` for any other byte. It knows no limit of lengths. Takes no memory.
pub fn next_digit(number: usize, byte: u8) -> Option<usize>
    ensures some { IfSome result (λ digit. (digit < 10) × (byte ≡ 48 + digit) × (0 < number + digit)) }
    ensures none { IsNone result → MayFollow number byte → (byte ≡ 0) × (0 < number) }
{
    match byte {
        b'1'..=b'9' => Some((byte - b'0') as usize),
        b'0' if number > 0 => Some(0),
        _ => None,
    }
}
