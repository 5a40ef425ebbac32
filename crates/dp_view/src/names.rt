//! The names of properties.

ghost use Rattle.std.specs.Prelude.{◌≡◌, ◌++◌, IfOk, OnOk};
ghost use Rattle.std.specs.List.{flat_map};
ghost use Rattle.dp_view.specs.Names as spec;
ghost use Rattle.dp_view.specs.Names.{index_of};

use crate::Memory;
use dp_bytes::{Bytes, put_in_quotes};
use dp_state::Path;
use dp_value::Key;
use itoa::Buffer;
use std::alloc::Global;

/// What stands before the names of the context with this id: nothing before those of constants, and else `$`. Takes no
/// memory.
pub fn sigil(id: u32) -> &'static [u8]
    ensures { result.now ≡ spec.sigil id }
{
    if id == 2 {
        b"".as_slice()
    } else {
        b"$".as_slice()
    }
}

/// What a user calls the variable of this name in a context: `$` and the name, and a constant by its name.
pub(crate) fn variable_name(alloc: Global, id: u32, name: &[u8]) -> Result<Bytes, Memory>
    ensures { IfOk result (λ n. n ≡ spec.variable_name id name.now) }
{
    let mut out = Vec::from_slice(alloc, sigil(id))?;
    out.extend_from_slice(name)?;
    Ok(Bytes::of(out))
}

/// What a user calls the entry under this key: its text.
pub(crate) fn key_text(alloc: Global, key: &Key) -> Result<Bytes, Memory>
    ensures { IfOk result (λ n. n ≡ spec.key_text key.now) }
{
    match key {
        Key::Int(n) => {
            let mut buffer = Buffer::new();
            Bytes::from_slice(alloc, buffer.format(*n).as_bytes())
        }
        Key::Text(bytes) => Bytes::from_slice(alloc, bytes.as_slice()),
    }
}

/// Puts the index of a text behind others: its bytes, escaped, between quotes and brackets.
fn put_text_index(out: &mut Vec<u8>, bytes: &[u8]) -> Result<(), Memory>
    ensures { OnOk result (out.new.items ≡ out.old.items ++ spec.text_index bytes.now) }
{
    out.extend_from_slice(b"[\"")?;
    put_in_quotes(out, bytes)?;
    out.extend_from_slice(b"\"]")
}

/// Puts the index of an integer behind others: its decimal between brackets.
fn put_int_index(out: &mut Vec<u8>, n: i64) -> Result<(), Memory>
    ensures { OnOk result (out.new.items ≡ out.old.items ++ spec.int_index n) }
{
    let mut buffer = Buffer::new();
    out.push(b'[')?;
    out.extend_from_slice(buffer.format(n).as_bytes())?;
    out.push(b']')?;
    Ok(())
}

/// Puts the index by which the entry under a key is named behind others.
fn put_index(out: &mut Vec<u8>, key: &Key) -> Result<(), Memory>
    ensures { OnOk result (out.new.items ≡ out.old.items ++ index_of key.now) }
{
    match key {
        Key::Int(n) => put_int_index(out, *n),
        Key::Text(bytes) => put_text_index(out, bytes.as_slice()),
    }
}

/// Puts the indices of these keys behind others, in their order.
fn put_indices(out: &mut Vec<u8>, keys: &[Key]) -> Result<(), Memory>
    ensures { OnOk result (out.new.items ≡ out.old.items ++ flat_map index_of keys.now) }
{
    for key in keys {
        put_index(out, key)?;
    }
    Ok(())
}

/// What a user calls what stands at a path in a context: the variable, or the text of the last key.
pub(crate) fn own_name(alloc: Global, id: u32, path: &Path) -> Result<Bytes, Memory>
    ensures { IfOk result (λ n. n ≡ spec.own_name id path.now) }
{
    let keys = path.keys.as_slice();
    match keys.get(keys.len().saturating_sub(1)) {
        Some(key) => key_text(alloc, key),
        None => variable_name(alloc, id, path.name.as_slice()),
    }
}

/// The name by which a command can ask for what stands at a path in a context.
pub(crate) fn full_name(alloc: Global, id: u32, path: &Path) -> Result<Bytes, Memory>
    ensures { IfOk result (λ n. n ≡ spec.full_name id path.now) }
{
    let mut out = Vec::from_slice(alloc, sigil(id))?;
    out.extend_from_slice(path.name.as_slice())?;
    put_indices(&mut out, path.keys.as_slice())?;
    Ok(Bytes::of(out))
}

/// A full name with the index of a key behind it.
fn with_index(alloc: Global, full: &[u8], key: &Key) -> Result<Bytes, Memory>
    ensures { IfOk result (λ n. n ≡ full.now ++ index_of key.now) }
{
    let mut out = Vec::from_slice(alloc, full)?;
    put_index(&mut out, key)?;
    Ok(Bytes::of(out))
}

/// The full name of an entry, where that of its array is given.
pub(crate) fn entry_name(
    alloc: Global,
    full: &Option<Bytes>,
    key: &Key,
) -> Result<Option<Bytes>, Memory>
    ensures { IfOk result (λ n. n ≡ spec.entry_name full.now key.now) }
{
    match full {
        None => Ok(None),
        Some(full) => Ok(Some(with_index(alloc, full.as_slice(), key)?)),
    }
}
