//! Lines of words and numbers.
ghost use Rattle.std.specs.Prelude.{◌≡◌, ◌++◌, decimal, IfOk};

use dp_bytes::Memory;
use std::alloc::Global;

/// Text that goes on with a word and a number.
pub(crate) fn with_number(
    alloc: Global,
    mut text: Vec<u8>,
    word: &[u8],
    number: u64,
) -> Result<Vec<u8>, Memory>
    ensures { IfOk result (λ more. more.items ≡ text.items ++ word.now ++ decimal number) }
{
    let digits = number.to_string(alloc)?;
    text.extend_from_slice(word)?;
    text.extend_from_slice(digits.as_bytes())?;
    Ok(text)
}
