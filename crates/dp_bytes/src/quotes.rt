//! Bytes between double quotes, as command lines and the names of properties have them.

ghost use Rattle.std.specs.Prelude.{◌≡◌, ◌++◌, OnOk};
ghost use Rattle.std.specs.List.{flat_map};
ghost use Rattle.dp_bytes.specs.Quotes.{in_quotes};

use crate::Memory;

/// Appends bytes as they stand between double quotes, without the quotes: a quote, a backslash and NUL as a pair, each
/// other byte as itself.
pub fn put_in_quotes(out: &mut Vec<u8>, bytes: &[u8]) -> Result<(), Memory>
    ensures { OnOk result (out.new.items ≡ out.old.items ++ flat_map in_quotes bytes.now) }
{
    for b in bytes {
        put_byte(out, *b)?;
    }
    Ok(())
}

/// Puts one byte as it is written between quotes.
fn put_byte(out: &mut Vec<u8>, b: u8) -> Result<(), Memory>
    ensures { OnOk result (out.new.items ≡ out.old.items ++ in_quotes b) }
{
    match b {
        b'"' => out.extend_from_slice(b"\\\""),
        b'\\' => out.extend_from_slice(b"\\\\"),
        0 => out.extend_from_slice(b"\\0"),
        _ => out.extend_from_slice(&[b]),
    }
}
