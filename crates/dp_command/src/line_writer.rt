//! Writing a line in its canonical form.

ghost use Rattle.std.specs.Prelude.{◌≡◌, ◌++◌, IfOk, OnOk};
ghost use Rattle.std.specs.List.{flat_map};
ghost use Rattle.dp_command.specs.Canonical as spec;
ghost use Rattle.dp_command.specs.Canonical.{canonical, quoted, canonical_value, canonical_option, canonical_payload};
ghost use Rattle.dp_command.specs.Canonical.{all_bare};

use crate::Memory;
use crate::line::Line;
use crate::sort::Sort;
use base64::engine::general_purpose::STANDARD;
use dp_bytes::{Bytes, put_in_quotes};
use std::alloc::Global;

/// The canonical form of a line: one space between parts, none at the end, and quotes round a value
/// exactly where it is empty or holds a space, NUL or a quote.
pub fn write_line(alloc: Global, line: &Line) -> Result<Bytes, Memory>
    ensures { IfOk result (λ text. text ≡ canonical line.now) }
{
    let mut out = Vec::new(alloc);
    out.extend_from_slice(line.name.as_slice())?;
    write_options(&mut out, line.options.as_slice())?;
    if let Some(payload) = &line.payload {
        write_payload(alloc, &mut out, payload.as_slice())?;
    }
    Ok(Bytes::of(out))
}

/// Puts the options in canonical form, in their order.
fn write_options(out: &mut Vec<u8>, options: &[(u8, Bytes)]) -> Result<(), Memory>
    ensures { OnOk result (out.new.items ≡ out.old.items ++ flat_map canonical_option options.now) }
{
    for option in options {
        write_option(out, option.0, option.1.as_slice())?;
    }
    Ok(())
}

/// Puts an option in canonical form: a space, a dash, its letter, a space and its value.
fn write_option(out: &mut Vec<u8>, letter: u8, value: &[u8]) -> Result<(), Memory>
    ensures { OnOk result (out.new.items ≡ out.old.items ++ canonical_option (letter, value.now)) }
{
    out.extend_from_slice(&[b' ', b'-', letter, b' '])?;
    write_value(out, value)
}

/// Whether a value is written in quotes: it is empty or holds a space, NUL or a quote.
fn needs_quotes(value: &[u8]) -> bool
    ensures { result ≡ spec.needs_quotes value.now }
{
    value.is_empty() || !all_bare(value)
}

/// Whether no byte of a value is a space, NUL or a quote.
fn all_bare(value: &[u8]) -> bool
    ensures { result ≡ spec.all_bare value.now }
{
    for b in value {
        if !Sort::Bare.has(*b) {
            return false;
        }
    }
    true
}

/// Puts a value in canonical form, in quotes only where it needs them.
fn write_value(out: &mut Vec<u8>, value: &[u8]) -> Result<(), Memory>
    ensures { OnOk result (out.new.items ≡ out.old.items ++ canonical_value value.now) }
{
    if needs_quotes(value) {
        write_quoted(out, value)
    } else {
        out.extend_from_slice(value)
    }
}

/// Puts a value between quotes, with escapes for the bytes that need them.
fn write_quoted(out: &mut Vec<u8>, value: &[u8]) -> Result<(), Memory>
    ensures { OnOk result (out.new.items ≡ out.old.items ++ quoted value.now) }
{
    out.push(b'"')?;
    put_in_quotes(out, value)?;
    out.push(b'"')?;
    Ok(())
}

/// Puts a payload in canonical form: ` -- ` and its base64.
fn write_payload(alloc: Global, out: &mut Vec<u8>, payload: &[u8]) -> Result<(), Memory>
    ensures { OnOk result (out.new.items ≡ out.old.items ++ canonical_payload (Some payload.now)) }
{
    out.extend_from_slice(b" -- ")?;
    let text = STANDARD.encode(alloc, payload)?;
    out.extend_from_slice(text.as_bytes())
}
