//! How names of properties are spelt. Each part is read from the left and without memory: what it says, and the bytes
//! behind it, or none.

ghost use Rattle.std.specs.Prelude.{◌≡◌, Some, None, if◌then◌else◌, length, option_map};
ghost use Rattle.dp_view.specs.Grammar.{pair_of};
ghost use Rattle.dp_view.specs.NameReader as spec;
ghost use Rattle.dp_view.specs.NameReader.{byte_at, index_at, int_at, key_at, keys_at, name_at, path_at, quoted_at};
ghost use Rattle.dp_view.specs.inner.Items.{behind_items, key_meant, keys_taken, path_taken};

use crate::sorts::{Sort, is_start, run};
use dp_bytes::int_of_text;
use dp_lexer::NAME_LIMIT;

/// How a key is spelt between brackets.
#[derive(Clone, Copy, Debug)]
pub(crate) enum Spelling<'n> {
    Int(i64),
    /// The quote, and the bytes behind the opening one.
    Text(u8, &'n [u8]),
}

/// What stands behind this byte.
fn behind(b: u8, bytes: &[u8]) -> Option<&[u8]>
    ensures { option_map (λ rest. rest.now) result ≡ spec.behind b bytes.now }
{
    match bytes {
        [first, rest @ ..] if *first == b => Some(rest),
        _ => None,
    }
}

/// The bytes without the `$` at the front, if there is one.
fn without_dollar(bytes: &[u8]) -> &[u8]
    ensures { result.now ≡ spec.without_dollar bytes.now }
{
    match bytes {
        [b'$', rest @ ..] => rest,
        _ => bytes,
    }
}

/// The name of the variable that stands here.
#[tactic(auto, unfolding(crate::specs::NameReader::name_at))]
fn name(bytes: &[u8]) -> Option<(&[u8], &[u8])>
    ensures { option_map (λ found. (found.0.now, found.1.now)) result ≡ name_at bytes.now }
{
    match bytes {
        [b, ..] if is_start(*b) => {
            let (name, rest) = run(Sort::Name, bytes);
            if name.len() > NAME_LIMIT {
                return None;
            }
            Some((name, rest))
        }
        _ => None,
    }
}

/// The byte that a backslash and this byte stand for between quotes.
fn pair(quote: u8, c: u8) -> Option<u8>
    ensures { result ≡ pair_of quote c }
{
    match c {
        b'"' => Some(b'"'),
        b'\\' => Some(b'\\'),
        b'0' => Some(0),
        _ => if c == quote { Some(quote) } else { None },
    }
}

/// The byte of the pair whose backslash stands before these bytes, and what stands behind the pair.
fn pair_byte(quote: u8, bytes: &[u8]) -> Option<(Option<u8>, &[u8])>
    ensures { option_map (λ found. (found.0, found.1.now)) result ≡ spec.pair_at quote bytes.now }
{
    match bytes {
        [] => None,
        [c, rest @ ..] => match pair(quote, *c) {
            Some(b) => Some((Some(b), rest)),
            None => None,
        },
    }
}

/// The byte between quotes that stands here; none at the closing quote.
#[tactic(auto, unfolding(crate::specs::NameReader::byte_at))]
pub(crate) fn byte(quote: u8, bytes: &[u8]) -> Option<(Option<u8>, &[u8])>
    ensures { option_map (λ found. (found.0, found.1.now)) result ≡ byte_at quote bytes.now }
{
    match bytes {
        [] => Some((None, bytes)),
        [b, ..] if *b == quote => Some((None, bytes)),
        [b'\\', rest @ ..] => pair_byte(quote, rest),
        [0, ..] => None,
        [b, rest @ ..] => Some((Some(*b), rest)),
    }
}

/// What stands behind the bytes between quotes: the closing quote, or nothing.
fn behind_text(quote: u8, bytes: &[u8]) -> Option<&[u8]>
    ensures { option_map (λ rest. rest.now) result ≡
        behind_items (byte_at quote) (length bytes.now) bytes.now }
{
    let mut rest = bytes;
    for _ in 0..bytes.len() {
        let (found, after) = byte(quote, rest)?;
        let Some(_) = found else {
            return Some(after);
        };
        rest = after;
    }
    Some(rest)
}

/// The key whose opening quote stands before these bytes.
fn quoted(quote: u8, bytes: &[u8]) -> Option<(Spelling, &[u8])>
    ensures { option_map (λ found. (key_meant found.0, found.1.now)) result ≡ quoted_at quote bytes.now }
{
    let rest = behind(quote, behind_text(quote, bytes)?)?;
    Some((Spelling::Text(quote, bytes), rest))
}

/// The integer that stands here.
#[tactic(auto, unfolding(crate::specs::NameReader::int_at))]
fn int(bytes: &[u8]) -> Option<(Spelling, &[u8])>
    ensures { option_map (λ found. (key_meant found.0, found.1.now)) result ≡ int_at bytes.now }
{
    let (text, rest) = run(Sort::Int, bytes);
    match int_of_text(text) {
        Some(n) => Some((Spelling::Int(n), rest)),
        None => None,
    }
}

/// The key whose opening bracket stands before these bytes.
#[tactic(auto, unfolding(crate::specs::NameReader::key_at))]
fn key(bytes: &[u8]) -> Option<(Spelling, &[u8])>
    ensures { option_map (λ found. (key_meant found.0, found.1.now)) result ≡ key_at bytes.now }
{
    match bytes {
        [b'"', rest @ ..] => quoted(b'"', rest),
        [b'\'', rest @ ..] => quoted(b'\'', rest),
        _ => int(bytes),
    }
}

/// The index that stands here; none at the end.
#[tactic(auto, unfolding(crate::specs::NameReader::index_at))]
pub(crate) fn index(bytes: &[u8]) -> Option<(Option<Spelling>, &[u8])>
    ensures { option_map (λ found. (option_map key_meant found.0, found.1.now)) result ≡ index_at bytes.now }
{
    if bytes.is_empty() {
        return Some((None, bytes));
    }
    let (key, rest) = key(behind(b'[', bytes)?)?;
    let rest = behind(b']', rest)?;
    Some((Some(key), rest))
}

/// Whether indices stand up to the end.
fn indices(bytes: &[u8]) -> bool
    ensures { (if result then Some (keys_taken bytes.now) else None) ≡ keys_at bytes.now }
{
    let mut rest = bytes;
    for _ in 0..bytes.len() {
        let Some((found, after)) = index(rest) else {
            return false;
        };
        let Some(_) = found else {
            return after.is_empty();
        };
        rest = after;
    }
    rest.is_empty()
}

/// The name and the indices of which bytes consist, where they name a path.
#[tactic(auto, unfolding(crate::specs::NameReader::path_at))]
pub(crate) fn parts(bytes: &[u8]) -> Option<(&[u8], &[u8])>
    ensures { option_map (λ found. path_taken found.0.now found.1.now) result ≡ path_at bytes.now }
{
    let (name, rest) = name(without_dollar(bytes))?;
    if indices(rest) {
        Some((name, rest))
    } else {
        None
    }
}
