//! What is left of a count behind the texts that a property is made of: their sizes are counted, and they are not made.
//! At 0 nothing more is counted. No call takes memory.

ghost use Rattle.std.specs.Prelude.{◌≡◌, ◌-◌, flat_map, length};
ghost use Rattle.std.specs.Fmt.{signed_decimal};
ghost use Rattle.dp_markup.specs.Escapes.{escaped};
ghost use Rattle.dp_packet.specs.Parts.{base64};
ghost use Rattle.dp_bytes.specs.Quotes.{in_quotes};
ghost use Rattle.dp_view.specs.Names as names;
ghost use Rattle.dp_view_limits.specs.inner.Sizes as spec;

use crate::digits::{int_size, number_size};
use dp_markup::Counter;
use dp_packet::PacketOutput;
use dp_state::Path;
use dp_value::Key;
use dp_view::sigil;

/// `<property></property>`
pub(crate) const PROPERTY: u64 = 21;

/// ` name=""`
pub(crate) const NAME: u64 = 8;

/// ` fullname=""`
pub(crate) const FULL_NAME: u64 = 12;

/// ` type="string" size="" encoding="base64"`
const TEXT: u64 = 40;

/// ` type="array" children="1" numchildren="" page="" pagesize=""`
const ARRAY: u64 = 61;

/// How long a byte between tags or quotes is.
fn byte_size(b: u8) -> u64
    ensures { result ≡ length (escaped b) }
{
    match b {
        b'"' => 6,
        b'&' | b'\'' => 5,
        b'<' | b'>' => 4,
        0x20..=0x7e => 1,
        0..=9 => 4,
        10..=0x1f => 5,
        _ => 6,
    }
}

/// Behind a text between tags or quotes.
#[tactic(auto, using(crate::proofs::Lengths::text_more))]
fn after_text(bytes: &[u8], left: u64) -> u64
    ensures { result ≡ left - spec.text_size bytes.now }
{
    let mut rest = left;
    for b in bytes {
        rest = rest.saturating_sub(byte_size(*b));
    }
    rest
}

/// Behind the base64 of bytes.
#[tactic(auto, using(dp_markup::proofs::OutputLaws::left_is))]
fn after_base64(bytes: &[u8], left: u64) -> u64
    ensures { result ≡ left - spec.text_size (base64 bytes.now) }
{
    let mut out = Counter { left };
    match out.put_base64(bytes) {
        Ok(()) => out.left,
        Err(never) => match never {},
    }
}

/// Behind the decimal of an integer.
pub(crate) fn after_int(n: i64, left: u64) -> u64
    ensures { result ≡ left - spec.text_size (signed_decimal n) }
{
    left.saturating_sub(int_size(n))
}

/// Behind the text of a key.
pub(crate) fn after_key(key: &Key, left: u64) -> u64
    ensures { result ≡ left - spec.text_size (names.key_text key.now) }
{
    match key {
        Key::Int(n) => after_int(*n, left),
        Key::Text(bytes) => after_text(bytes.as_slice(), left),
    }
}

/// How long a byte between the quotes of an index is.
fn quoted_byte_size(b: u8) -> u64
    ensures { result ≡ spec.text_size (in_quotes b) }
{
    match b {
        b'"' => 7,
        b'\\' | 0 => 2,
        _ => byte_size(b),
    }
}

/// Behind a text between the quotes of an index.
#[tactic(auto, using(crate::proofs::Lengths::quoted_more))]
fn after_quoted(bytes: &[u8], left: u64) -> u64
    ensures { result ≡ left - spec.text_size (flat_map in_quotes bytes.now) }
{
    let mut rest = left;
    for b in bytes {
        rest = rest.saturating_sub(quoted_byte_size(*b));
    }
    rest
}

/// Behind an integer between brackets.
#[tactic(auto, using(crate::proofs::Lengths::int_index_size))]
fn after_int_index(n: i64, left: u64) -> u64
    ensures { result ≡ left - spec.text_size (names.int_index n) }
{
    after_int(n, left.saturating_sub(2))
}

/// Behind a text between brackets and quotes.
#[tactic(auto, using(crate::proofs::Lengths::text_index_size))]
fn after_text_index(bytes: &[u8], left: u64) -> u64
    ensures { result ≡ left - spec.text_size (names.text_index bytes.now) }
{
    after_quoted(bytes, left.saturating_sub(14))
}

/// Behind the index by which an entry is named.
pub(crate) fn after_index(key: &Key, left: u64) -> u64
    ensures { result ≡ left - spec.text_size (names.index_of key.now) }
{
    match key {
        Key::Int(n) => after_int_index(*n, left),
        Key::Text(bytes) => after_text_index(bytes.as_slice(), left),
    }
}

/// Behind the indices of keys.
#[tactic(auto, using(crate::proofs::Lengths::indices_more))]
fn after_indices(keys: &[Key], left: u64) -> u64
    ensures { result ≡ left - spec.text_size (flat_map names.index_of keys.now) }
{
    let mut rest = left;
    for key in keys {
        rest = after_index(key, rest);
    }
    rest
}

/// Behind the name of a variable and what stands before those of its context.
#[tactic(auto, using(crate::proofs::Lengths::variable_name_size))]
pub(crate) fn after_variable_name(id: u32, name: &[u8], left: u64) -> u64
    ensures { result ≡ left - spec.text_size (names.variable_name id name.now) }
{
    after_text(name, after_text(sigil(id), left))
}

/// Behind what a user calls what stands at a path.
pub(crate) fn after_own_name(id: u32, path: &Path, left: u64) -> u64
    ensures { result ≡ left - spec.text_size (names.own_name id path.now) }
{
    let keys = path.keys.as_slice();
    match keys.get(keys.len().saturating_sub(1)) {
        Some(key) => after_key(key, left),
        None => after_variable_name(id, path.name.as_slice(), left),
    }
}

/// Behind the full name of what stands at a path.
#[tactic(auto, using(crate::proofs::Lengths::full_name_size))]
pub(crate) fn after_full_name(id: u32, path: &Path, left: u64) -> u64
    ensures { result ≡ left - spec.text_size (names.full_name id path.now) }
{
    after_indices(
        path.keys.as_slice(),
        after_variable_name(id, path.name.as_slice(), left),
    )
}

/// Behind what the value of a text adds to its property, of which so many bytes are shown.
pub(crate) fn after_front(most: u64, bytes: &[u8], left: u64) -> u64
    ensures { result ≡ left - spec.front_size most bytes.now }
{
    let end = bytes.len().min(most as usize);
    let rest = left.saturating_sub(TEXT + number_size(bytes.len() as u64));
    after_base64(&bytes[..end], rest)
}

/// Behind what an array adds to its property, without its entries.
pub(crate) fn after_array(count: u64, page: u64, size: u64, left: u64) -> u64
    ensures { result ≡ left - spec.array_size count page size }
{
    left.saturating_sub(ARRAY)
        .saturating_sub(number_size(count))
        .saturating_sub(number_size(page))
        .saturating_sub(number_size(size))
}
