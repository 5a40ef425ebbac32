//! Bytes in hexadecimal.
ghost use Rattle.std.specs.Prelude.{◌≡◌, ◌<◌, ◌∷◌, length, IfOk, MatchOption, option_map};
ghost use Rattle.dp_events.specs.inner.Spelling as spec;

use dp_bytes::Memory;
use std::alloc::Global;

/// The number of a hexadecimal digit, `0` to `9` or `a` to `f`; none for any other byte.
fn nibble(digit: u8) -> Option<u8>
    ensures { result ≡ spec.nibble digit }
{
    match digit {
        b'0'..=b'9' => Some(digit - b'0'),
        b'a'..=b'f' => Some(digit - 87),
        _ => None,
    }
}

/// The byte that two hexadecimal digits spell; none where one of them is no such digit.
fn byte_in(high: u8, low: u8) -> Option<u8>
    ensures { result ≡ spec.byte_in high low }
{
    let a = nibble(high)?;
    let b = nibble(low)?;
    Some(16 * a + b)
}

/// The first two digits, and what stands behind them.
fn first_pair(part: &[u8]) -> Option<(u8, u8, &[u8])>
    ensures { MatchOption result (length part.now < 2) (λ pair. part.now ≡ pair.0 ∷ pair.1 ∷ pair.2.now) }
{
    match part {
        [high, low, more @ ..] => Some((*high, *low, more)),
        _ => None,
    }
}

/// The bytes that pairs of hexadecimal digits spell; none where a pair spells no byte or a digit is left over.
fn pairs(alloc: Global, part: &[u8]) -> Result<Option<Vec<u8>>, Memory>
    ensures { IfOk result (λ bytes. option_map (λ v. v.items) bytes ≡ spec.pairs part.now) }
{
    let mut bytes = Vec::new(alloc);
    let mut rest = part;
    'pairs: while let Some((high, low, more)) = first_pair(rest) {
        let Some(byte) = byte_in(high, low) else {
            return Ok(None);
        };
        bytes.push(byte)?;
        rest = more;
    }
    if rest.is_empty() {
        Ok(Some(bytes))
    } else {
        Ok(None)
    }
}

/// The bytes that are spelled in hexadecimal: two digits for each, or `-` for none.
pub(crate) fn bytes_in(alloc: Global, part: &[u8]) -> Result<Option<Vec<u8>>, Memory>
    ensures { IfOk result (λ bytes. option_map (λ v. v.items) bytes ≡ spec.bytes_in part.now) }
{
    if part == b"-".as_slice() {
        return Ok(Some(Vec::new(alloc)));
    }
    if part.is_empty() {
        return Ok(None);
    }
    pairs(alloc, part)
}
