//! Numbers in options.

ghost use Rattle.std.specs.Prelude.{◌≡◌};
ghost use Rattle.dp_bytes.specs.Decimals.{decimal_in};
ghost use Rattle.dp_command.specs.Numbers.{greatest};

use dp_bytes::decimal;

const GREATEST: u64 = 2_147_483_647;

/// The number that a decimal of at most 2,147,483,647 writes: `0`, or a digit from 1 to 9 and more
/// digits. Takes no memory.
pub fn number_of(text: &[u8]) -> Option<u32>
    ensures { result ≡ decimal_in greatest text.now }
{
    match decimal(text, GREATEST) {
        Some(number) => Some(number as u32),
        None => None,
    }
}
