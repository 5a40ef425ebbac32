//! Attributes, put into an output.
ghost use Rattle.std.specs.Prelude.{◌≡◌, decimal, OnOk};
ghost use Rattle.std.specs.List.{flat_map};
ghost use Rattle.dp_markup.specs.Outputs.{behind};
ghost use Rattle.dp_markup.specs.Texts.{attribute_text};
ghost use Rattle.dp_packet.specs.Breakpoints.{given_number};
ghost use Rattle.dp_packet.specs.Parts as spec;
ghost use Rattle.dp_packet.specs.inner.Shown.{all_shown, shown_text};

use dp_bytes::Bytes;
use dp_markup::{Output, put_attribute, put_attributes};
use itoa::Buffer;

/// The namespace of DBGp.
pub(crate) const NAMESPACE: Attribute<'static> = Attribute::Text(
    b"xmlns",
    b"urn:debugger_protocol_v1",
);

/// What is put as attributes: a name with a text or with a number in decimal, which may be missing;
/// a name that is its own value, where something holds; or pairs.
#[derive(Clone, Copy)]
pub(crate) enum Attribute<'a> {
    Text(&'a [u8], &'a [u8]),
    Value(&'a [u8], &'a Bytes),
    Number(&'a [u8], u64),
    Given(&'a [u8], &'a Option<Bytes>),
    GivenNumber(&'a [u8], Option<u32>),
    Mark(&'a [u8], bool),
    Pairs(&'a [(Bytes, Bytes)]),
}

/// Puts an attribute whose value is a number in decimal.
fn put_number<O: Output>(out: &mut O, name: &[u8], number: u64) -> Result<(), O::Error>
    ensures { OnOk result (O.seen out.new ≡ behind (O.seen out.old) (attribute_text (name.now, decimal number))) }
{
    let mut buffer = Buffer::new();
    put_attribute(out, name, buffer.format(number).as_bytes())
}

/// Puts an attribute that may be missing.
fn put_given<O: Output>(out: &mut O, name: &[u8], value: &Option<Bytes>) -> Result<(), O::Error>
    ensures { OnOk result (O.seen out.new ≡ behind (O.seen out.old)
        (flat_map attribute_text (spec.given name.now value.now))) }
{
    match value {
        None => Ok(()),
        Some(value) => put_attribute(out, name, value.as_slice()),
    }
}

/// Puts an attribute of a number that may be missing.
fn put_given_number<O: Output>(out: &mut O, name: &[u8], value: Option<u32>) -> Result<(), O::Error>
    ensures { OnOk result (O.seen out.new ≡ behind (O.seen out.old)
        (flat_map attribute_text (given_number name.now value))) }
{
    match value {
        None => Ok(()),
        Some(number) => put_number(out, name, number as u64),
    }
}

/// Puts an attribute that says its own name, where something holds.
fn put_mark<O: Output>(out: &mut O, name: &[u8], holds: bool) -> Result<(), O::Error>
    ensures { OnOk result (O.seen out.new ≡ behind (O.seen out.old)
        (flat_map attribute_text (spec.mark name.now holds))) }
{
    if holds {
        put_attribute(out, name, name)
    } else {
        Ok(())
    }
}

/// Puts what is given, where it isn't missing.
fn put_one<O: Output>(out: &mut O, attribute: &Attribute) -> Result<(), O::Error>
    ensures { OnOk result (O.seen out.new ≡ behind (O.seen out.old) (shown_text attribute.now)) }
{
    match attribute {
        Attribute::Text(name, value) => put_attribute(out, name, value),
        Attribute::Value(name, value) => put_attribute(out, name, value.as_slice()),
        Attribute::Number(name, number) => put_number(out, name, *number),
        Attribute::Given(name, value) => put_given(out, name, value),
        Attribute::GivenNumber(name, value) => put_given_number(out, name, *value),
        Attribute::Mark(name, holds) => put_mark(out, name, *holds),
        Attribute::Pairs(pairs) => put_attributes(out, pairs),
    }
}

/// Puts attributes, in their order.
pub(crate) fn put_shown<O: Output>(out: &mut O, attributes: &[Attribute]) -> Result<(), O::Error>
    ensures { OnOk result (O.seen out.new ≡ behind (O.seen out.old)
        (flat_map attribute_text (all_shown attributes.now))) }
{
    put_each(out, attributes)
}

/// Puts one after the other.
fn put_each<O: Output>(out: &mut O, attributes: &[Attribute]) -> Result<(), O::Error>
    ensures { OnOk result (O.seen out.new ≡ behind (O.seen out.old) (flat_map shown_text attributes.now)) }
{
    for attribute in attributes {
        put_one(out, attribute)?;
    }
    Ok(())
}

/// The value of an attribute that says yes or no: `1` or `0`. Takes no memory.
pub fn flag(value: bool) -> &'static [u8]
    ensures { result.now ≡ spec.flag value }
{
    if value { b"1" } else { b"0" }
}
