//! The parts of a line that take no memory.

ghost use Rattle.std.specs.Prelude.{◌≡◌, MatchOption, None, Some};
ghost use Rattle.dp_command.specs.inner.Parts.{spaces_at, name_at, letter_at, letter_of, text_at, ending_at};
ghost use Rattle.dp_command.specs.inner.Parts.{seen_text};
ghost use Rattle.dp_command.specs.Lines.{Gives};

use crate::errors::LineError;
use crate::sort::{Sort, is_letter, run};

/// The most bytes of the name of a command.
const NAME_LIMIT: usize = 64;

/// What stands behind one space or more.
#[tactic(auto, unfolding(crate::specs::inner::Parts::spaces_at))]
pub(crate) fn spaces(bytes: &[u8]) -> Result<&[u8], LineError>
    ensures { Gives (λ rest. rest.now) result (spaces_at bytes.now) }
{
    match bytes {
        [b' ', ..] => Ok(run(Sort::Space, bytes).1),
        _ => Err(LineError::Parse),
    }
}

/// Reads the name of a command, and what stands behind it; refuses an empty name and one of more than 64 bytes.
#[tactic(auto, unfolding(crate::specs::inner::Parts::name_at))]
pub(crate) fn name(bytes: &[u8]) -> Result<(&[u8], &[u8]), LineError>
    ensures { Gives (λ found. (found.0.now, found.1.now)) result (name_at bytes.now) }
{
    let (name, rest) = run(Sort::Name, bytes);
    if name.is_empty() || name.len() > NAME_LIMIT {
        return Err(LineError::Parse);
    }
    Ok((name, rest))
}

/// The letter behind a dash at the front, and what stands behind it.
fn dashed_letter(bytes: &[u8]) -> Option<(u8, &[u8])>
    ensures { MatchOption result (letter_of bytes.now ≡ None)
        (λ found. letter_of bytes.now ≡ Some (found.0, found.1.now)) }
{
    match bytes {
        [dash, letter, rest @ ..] => {
            if *dash == b'-' && is_letter(*letter) {
                Some((*letter, rest))
            } else {
                None
            }
        }
        _ => None,
    }
}

/// The letter of the option that stands here.
#[tactic(auto, unfolding(crate::specs::inner::Parts::letter_at, crate::specs::inner::Parts::spaces_at))]
pub(crate) fn letter(bytes: &[u8]) -> Option<(u8, &[u8])>
    ensures { MatchOption result (letter_at bytes.now ≡ None)
        (λ found. letter_at bytes.now ≡ Some (found.0, found.1.now)) }
{
    match bytes {
        [b' ', ..] => dashed_letter(run(Sort::Space, bytes).1),
        _ => None,
    }
}

/// The text of a payload, with spaces before it and nothing but spaces behind it.
#[tactic(auto, unfolding(crate::specs::inner::Parts::text_at))]
fn text(bytes: &[u8]) -> Result<&[u8], LineError>
    ensures { Gives (λ text. text.now) result (text_at bytes.now) }
{
    let (text, rest) = run(Sort::Text, spaces(bytes)?);
    if !run(Sort::Space, rest).1.is_empty() {
        return Err(LineError::Parse);
    }
    Ok(text)
}

/// The text of the payload where there is one, up to the end of the line.
#[tactic(auto, unfolding(crate::specs::inner::Parts::ending_at))]
pub(crate) fn ending(bytes: &[u8]) -> Result<Option<&[u8]>, LineError>
    ensures { Gives (λ found. seen_text (λ t. t.now) found) result (ending_at bytes.now) }
{
    if run(Sort::Space, bytes).1.is_empty() {
        return Ok(None);
    }
    match spaces(bytes)? {
        [a, b, rest @ ..] if *a == b'-' && *b == b'-' => Ok(Some(text(rest)?)),
        _ => Err(LineError::Parse),
    }
}
