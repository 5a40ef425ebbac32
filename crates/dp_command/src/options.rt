//! The options that were given.

ghost use Rattle.std.specs.Prelude.{◌≡◌, IfOk};
ghost use Rattle.std.specs.Option.{option_copied};
ghost use Rattle.dp_command.specs.Options as spec;

use crate::command::StreamMode;
use crate::numbers::number_of;
use dp_bytes::{Bytes, Memory};
use std::alloc::Global;

/// The value of the first option of a letter. Takes no memory.
pub fn option_value(options: &[(u8, Bytes)], letter: u8) -> Option<&[u8]>
    ensures { option_copied result ≡ spec.given letter options.now }
{
    for option in options {
        if option.0 == letter {
            return Some(option.1.as_slice());
        }
    }
    None
}

/// Whether an option of this letter is given.
pub(crate) fn is_given(options: &[(u8, Bytes)], letter: u8) -> bool
    ensures { result ≡ spec.is_given letter options.now }
{
    option_value(options, letter).is_some()
}

/// Whether a letter stands twice. There are not many letters, so the walk ends soon where there
/// are many options. Takes no memory.
pub fn has_duplicate(options: &[(u8, Bytes)]) -> bool
    ensures { result ≡ spec.has_duplicate options.now }
{
    for (at, option) in options.iter().enumerate() {
        if is_given(&options[at + 1..], option.0) {
            return true;
        }
    }
    false
}

/// A copy of the value of a letter, where one is given.
pub(crate) fn copy_of(
    alloc: Global,
    options: &[(u8, Bytes)],
    letter: u8,
) -> Result<Option<Bytes>, Memory>
    ensures { IfOk result (λ value. value ≡ spec.given letter options.now) }
{
    match option_value(options, letter) {
        Some(value) => Ok(Some(Bytes::from_slice(alloc, value)?)),
        None => Ok(None),
    }
}

/// A copy of the value of a letter that is required.
pub(crate) fn text_given(
    alloc: Global,
    options: &[(u8, Bytes)],
    letter: u8,
) -> Result<Bytes, Memory>
    ensures { IfOk result (λ value. value ≡ spec.text_given letter options.now) }
{
    match option_value(options, letter) {
        Some(value) => Bytes::from_slice(alloc, value),
        None => Ok(Bytes::of(Vec::new(alloc))),
    }
}

/// The number that the first option of a letter gives; none where it is not given or no number.
pub(crate) fn number_given(options: &[(u8, Bytes)], letter: u8) -> Option<u32>
    ensures { result ≡ spec.number_given letter options.now }
{
    match option_value(options, letter) {
        Some(value) => number_of(value),
        None => None,
    }
}

/// The number that the first option of a letter gives, or 0 where it gives none.
pub(crate) fn number_or_zero(options: &[(u8, Bytes)], letter: u8) -> u32
    ensures { result ≡ spec.number_or_zero letter options.now }
{
    number_given(options, letter).unwrap_or(0)
}

/// The mode of a stream that `0`, `1` or `2` names; none for any other value.
pub(crate) fn mode_of(value: &[u8]) -> Option<StreamMode>
    ensures { result ≡ spec.mode_of value.now }
{
    match value {
        [b'0'] => Some(StreamMode::Disable),
        [b'1'] => Some(StreamMode::Copy),
        [b'2'] => Some(StreamMode::Redirect),
        _ => None,
    }
}

/// The mode of a stream that the first option of a letter gives, or `Disable` where it gives none.
pub(crate) fn mode_given(options: &[(u8, Bytes)], letter: u8) -> StreamMode
    ensures { result ≡ spec.mode_given letter options.now }
{
    let mode = match option_value(options, letter) {
        Some(value) => mode_of(value),
        None => None,
    };
    mode.unwrap_or(StreamMode::Disable)
}
