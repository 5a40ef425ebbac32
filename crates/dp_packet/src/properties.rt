//! The texts of properties.

ghost use Rattle.std.specs.Prelude.{◌≡◌, map, OnOk};
ghost use Rattle.std.specs.Fmt.{signed_decimal};
ghost use Rattle.std.specs.List.{flat_map};
ghost use Rattle.dp_markup.specs.Escapes.{escaped_all};
ghost use Rattle.dp_markup.specs.Outputs.{behind};
ghost use Rattle.dp_markup.specs.Texts.{attribute_text, node_text, nodes_text};
ghost use Rattle.dp_packet.specs.Parts.{rest_text};
ghost use Rattle.dp_packet.specs.Properties.{array_attributes, kind_attributes, property_node, text_attributes};
ghost use Rattle.dp_packet.specs.inner.Shapes.{front_text, names_of, shape_part};

use crate::attributes::{Attribute, flag, put_shown};
use crate::elements::put_rest;
use crate::outputs::PacketOutput;
use crate::property::{Property, Shape, ValueKind};
use dp_markup::{Output, put_close, put_escaped, put_open};
use itoa::Buffer;

/// Puts the rest of the start tag of a text's property: its length in bytes, and that it stands in base64.
fn put_text<O: Output>(out: &mut O, size: u64) -> Result<(), O::Error>
    ensures { OnOk result (O.seen out.new ≡ behind (O.seen out.old) (rest_text (text_attributes size))) }
{
    let attributes = [
        Attribute::Text(b"type", b"string"),
        Attribute::Number(b"size", size),
        Attribute::Text(b"encoding", b"base64"),
    ];
    put_rest(out, &attributes)
}

/// Puts the rest of the start tag of an array's property: whether it has entries, their number, and the page.
fn put_array<O: Output>(out: &mut O, count: u64, page: u64, pagesize: u64) -> Result<(), O::Error>
    ensures { OnOk result (O.seen out.new ≡ behind (O.seen out.old)
        (rest_text (array_attributes count page pagesize))) }
{
    let attributes = [
        Attribute::Text(b"type", b"array"),
        Attribute::Text(b"children", flag(count != 0)),
        Attribute::Number(b"numchildren", count),
        Attribute::Number(b"page", page),
        Attribute::Number(b"pagesize", pagesize),
    ];
    put_rest(out, &attributes)
}

/// Puts the rest of a property's start tag behind its names: what it tells of the value, and `>`. The only error is the
/// output's.
pub fn put_kind<O: Output>(out: &mut O, kind: ValueKind) -> Result<(), O::Error>
    ensures { OnOk result (O.seen out.new ≡ behind (O.seen out.old) (rest_text (kind_attributes kind))) }
{
    match kind {
        ValueKind::Null => put_rest(out, &[Attribute::Text(b"type", b"null")]),
        ValueKind::Bool => put_rest(out, &[Attribute::Text(b"type", b"bool")]),
        ValueKind::Int => put_rest(out, &[Attribute::Text(b"type", b"int")]),
        ValueKind::Text(size) => put_text(out, size),
        ValueKind::Array {
            count,
            page,
            pagesize,
        } => put_array(out, count, page, pagesize),
    }
}

/// What a start tag tells of a shape.
fn kind_of(shape: &Shape) -> ValueKind
    ensures { kind_attributes result ≡ (shape_part shape.now).0 }
{
    match shape {
        Shape::Null => ValueKind::Null,
        Shape::Bool(_) => ValueKind::Bool,
        Shape::Int(_) => ValueKind::Int,
        Shape::Text { size, front: _ } => ValueKind::Text(*size),
        Shape::Array {
            count,
            page,
            pagesize,
            nested: _,
        } => ValueKind::Array {
            count: *count,
            page: *page,
            pagesize: *pagesize,
        },
    }
}

/// Puts the names of a property, those that it has.
#[tactic(auto, using(crate::proofs::OutLaws::nothing_behind))]
fn put_names<O: Output>(out: &mut O, p: &Property) -> Result<(), O::Error>
    ensures { OnOk result (O.seen out.new ≡ behind (O.seen out.old) (flat_map attribute_text (names_of p.now))) }
{
    let names = [
        Attribute::Given(b"name", &p.name),
        Attribute::Given(b"fullname", &p.fullname),
    ];
    put_shown(out, &names)
}

/// Puts the start tag of a property.
fn put_front<O: Output>(out: &mut O, p: &Property) -> Result<(), O::Error>
    ensures { OnOk result (O.seen out.new ≡ behind (O.seen out.old)
        (front_text (names_of p.now) (shape_part p.now.shape).0)) }
{
    put_open(out, b"property")?;
    put_names(out, p)?;
    put_kind(out, kind_of(&p.shape))
}

/// Puts an integer in decimal, as a text. The only error is the output's.
pub fn put_int<O: Output>(out: &mut O, number: i64) -> Result<(), O::Error>
    ensures { OnOk result (O.seen out.new ≡ behind (O.seen out.old) (escaped_all (signed_decimal number))) }
{
    let mut buffer = Buffer::new();
    put_escaped(out, buffer.format(number).as_bytes())
}

/// Puts what a value has between the tags of its property.
#[cycle(showing)]
#[tactic(auto, using(crate::proofs::OutLaws::words_text))]
fn put_content<O: PacketOutput>(out: &mut O, shape: &Shape) -> Result<(), O::Error>
    ensures { OnOk result (O.Output.seen out.new ≡ behind (O.Output.seen out.old)
        (nodes_text (shape_part shape.now).1)) }
{
    match shape {
        Shape::Null => Ok(()),
        Shape::Bool(value) => put_escaped(out, flag(*value)),
        Shape::Int(number) => put_int(out, *number),
        Shape::Text { size: _, front } => out.put_base64(front.as_slice()),
        Shape::Array {
            count: _,
            page: _,
            pagesize: _,
            nested,
        } => { put_properties(out, nested.as_slice()) }
    }
}

/// Puts the element of a property, with what stands in it.
#[cycle(showing)]
pub(crate) fn put_property<O: PacketOutput>(out: &mut O, p: &Property) -> Result<(), O::Error>
    ensures { OnOk result (O.Output.seen out.new ≡ behind (O.Output.seen out.old) (node_text (property_node p.now))) }
{
    put_front(out, p)?;
    put_content(out, &p.shape)?;
    put_close(out, b"property")
}

/// Puts the elements of properties.
#[cycle(showing)]
pub(crate) fn put_properties<O: PacketOutput>(
    out: &mut O,
    properties: &[Property],
) -> Result<(), O::Error>
    ensures { OnOk result (O.Output.seen out.new ≡ behind (O.Output.seen out.old)
        (nodes_text (map property_node properties.now))) }
{
    for p in properties {
        put_property(out, p)?;
    }
    Ok(())
}
