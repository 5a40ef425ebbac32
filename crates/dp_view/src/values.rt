//! What `property_value` shows of a value.

ghost use Rattle.std.specs.Prelude.{◌≡◌, IfOk};
ghost use Rattle.std.specs.Fmt.{signed_decimal};
ghost use Rattle.dp_packet.specs.Parts.{base64};
ghost use Rattle.dp_packet.specs.Properties.{text_attributes, type_of};
ghost use Rattle.dp_value.specs.Value.{data_of};
ghost use Rattle.dp_view.specs.Values as spec;

use crate::Memory;
use base64::engine::general_purpose::STANDARD;
use dp_bytes::{Bytes, Items};
use dp_packet::{flag, put_attribute};
use dp_value::Value;
use itoa::Buffer;
use std::alloc::Global;

/// What the response to `property_value` shows of a value.
#[derive(Debug, Drop)]
pub struct ShownValue {
    /// Its type, and of a text its whole length and its encoding.
    pub attributes: Items<(Bytes, Bytes)>,
    /// The value, of a text its first bytes in base64, and nothing of an array.
    pub text: Bytes,
}

/// The attribute of a type alone.
fn of_type(alloc: Global, name: &[u8]) -> Result<Vec<(Bytes, Bytes)>, Memory>
    ensures { IfOk result (λ attributes. attributes.items ≡ type_of name.now) }
{
    let mut attributes = Vec::new(alloc);
    put_attribute(alloc, &mut attributes, b"type", name)?;
    Ok(attributes)
}

/// The attributes of a text of this length.
fn of_text(alloc: Global, size: usize) -> Result<Vec<(Bytes, Bytes)>, Memory>
    ensures { IfOk result (λ attributes. attributes.items ≡ text_attributes size) }
{
    let mut attributes = Vec::new(alloc);
    let mut buffer = Buffer::new();
    put_attribute(alloc, &mut attributes, b"type", b"string")?;
    put_attribute(
        alloc,
        &mut attributes,
        b"size",
        buffer.format(size).as_bytes(),
    )?;
    put_attribute(alloc, &mut attributes, b"encoding", b"base64")?;
    Ok(attributes)
}

/// The attributes of a value: its type, and of a text its whole length and its encoding.
fn attributes_of(alloc: Global, value: &Value) -> Result<Vec<(Bytes, Bytes)>, Memory>
    ensures { IfOk result (λ attributes. attributes.items ≡ spec.attributes_of (data_of value.now)) }
{
    match value {
        Value::Null => of_type(alloc, b"null"),
        Value::Bool(_) => of_type(alloc, b"bool"),
        Value::Int(_) => of_type(alloc, b"int"),
        Value::Text(bytes) => of_text(alloc, bytes.len()),
        Value::Array(_) => of_type(alloc, b"array"),
    }
}

/// The first bytes of a text, at most so many, or all.
fn front_of(bytes: &[u8], most: Option<u64>) -> &[u8]
    ensures { result.now ≡ spec.front_of most bytes.now }
{
    match most {
        None => bytes,
        Some(most) => &bytes[..bytes.len().min(most as usize)],
    }
}

/// Bytes in base64, with padding.
fn base64_of(alloc: Global, bytes: &[u8]) -> Result<Bytes, Memory>
    ensures { IfOk result (λ text. text ≡ base64 bytes.now) }
{
    let text = STANDARD.encode(alloc, bytes)?;
    Ok(Bytes::of(text.into_bytes()))
}

/// An integer in decimal.
fn int_text(alloc: Global, n: i64) -> Result<Bytes, Memory>
    ensures { IfOk result (λ text. text ≡ signed_decimal n) }
{
    let mut buffer = Buffer::new();
    Bytes::from_slice(alloc, buffer.format(n).as_bytes())
}

/// The value as text, of a text its first bytes in base64, at most so many or all, and nothing of an array.
fn text_of(alloc: Global, value: &Value, most: Option<u64>) -> Result<Bytes, Memory>
    ensures { IfOk result (λ text. text ≡ spec.text_of most (data_of value.now)) }
{
    match value {
        Value::Null => Ok(Bytes::of(Vec::new(alloc))),
        Value::Bool(b) => Bytes::from_slice(alloc, flag(*b)),
        Value::Int(n) => int_text(alloc, *n),
        Value::Text(bytes) => base64_of(alloc, front_of(bytes.as_slice(), most)),
        Value::Array(_) => Ok(Bytes::of(Vec::new(alloc))),
    }
}

/// What `property_value` shows of a value, and of a text the first bytes, at most `most`, or all. DBGp 1.0,
/// "property_value".
pub fn value_shown(alloc: Global, value: &Value, most: Option<u64>) -> Result<ShownValue, Memory>
    ensures { IfOk result (λ made. made ≡ spec.value_shown most (data_of value.now)) }
{
    let attributes = attributes_of(alloc, value)?;
    let text = text_of(alloc, value, most)?;
    Ok(ShownValue {
        attributes: Items::of(attributes),
        text,
    })
}
