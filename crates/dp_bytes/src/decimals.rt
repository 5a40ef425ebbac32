//! Numbers that are spelled in decimal.

ghost use Rattle.std.specs.Prelude.{◌≡◌, ◌≤◌, IfSome};
ghost use Rattle.dp_bytes.specs.Decimals.{decimal_in, is_decimal as spelt_decimal};

use crate::integers::starts_above_zero;

/// The number whose decimal the text is, where it is at most `most`: `0`, or a digit from 1 to 9
/// followed by digits. Takes no memory.
#[tactic(auto, unfolding(crate::specs::Decimals::decimal_in))]
pub fn decimal(text: &[u8], most: u64) -> Option<u64>
    ensures value { result ≡ decimal_in most text.now }
    ensures bound { IfSome result (λ n. n ≤ most) }
{
    if !is_decimal(text) {
        return None;
    }
    let text = str::from_utf8(text).ok()?;
    let number = text.parse::<u64>().ok()?;
    if number <= most { Some(number) } else { None }
}

/// Whether a text is `0`, or digits that begin with another one.
fn is_decimal(text: &[u8]) -> bool
    ensures { result ≡ spelt_decimal text.now }
{
    text == b"0".as_slice() || starts_above_zero(text)
}
