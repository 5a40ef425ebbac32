//! What is found in a packet.
ghost use Rattle.std.specs.Prelude.{◌≡◌, IfOk, Some, None, map};
ghost use Rattle.std.specs.Option.{option_copied, option_map};
ghost use Rattle.dp_ide.specs.Messages as spec;
ghost use Rattle.dp_markup.specs.Grammar.{value_of};

use dp_bytes::{Bytes, Memory};
use dp_markup::{Element, same_text};
use dp_packet::{Body, Packet, Property, Shape};
use std::alloc::Global;

/// The value of the first of these attributes that has this name.
fn value_among<'a>(attributes: &'a [(Bytes, Bytes)], name: &[u8]) -> Option<&'a [u8]>
    ensures { option_copied result ≡ value_of attributes.now name.now }
{
    for attribute in attributes {
        if same_text(attribute.0.as_slice(), name) {
            return Some(attribute.1.as_slice());
        }
    }
    None
}

/// The value of the root's attribute of this name.
pub(crate) fn attribute<'a>(root: &'a Element, name: &[u8]) -> Option<&'a [u8]>
    ensures { option_copied result ≡ value_of root.now.attributes name.now }
{
    value_among(root.attributes.as_slice(), name)
}

/// Whether it is the first packet of a session.
pub(crate) fn is_init(packet: &Packet) -> bool
    ensures { result ≡ spec.is_init packet.now }
{
    matches!(packet, Packet::Init(_))
}

/// Whether it is the response to the command with this id.
pub(crate) fn answers(id: &[u8], packet: &Packet) -> bool
    ensures { result ≡ spec.answers id.now packet.now }
{
    match packet {
        Packet::Response(response) => response.id.as_slice() == id,
        _ => false,
    }
}

/// The program's output that it carries.
pub(crate) fn output_in(packet: &Packet) -> &[u8]
    ensures { result.now ≡ spec.output_in packet.now }
{
    match packet {
        Packet::Stream(output) => output.as_slice(),
        _ => b"",
    }
}

/// The code of the error that it tells, 0 for none.
pub(crate) fn code_in(packet: &Packet) -> u16
    ensures { result ≡ spec.code_in packet.now }
{
    match packet {
        Packet::Response(response) => match &response.body {
            Body::Fault(code) => *code,
            _ => 0,
        },
        _ => 0,
    }
}

/// The properties that it shows.
fn properties_in(packet: &Packet) -> &[Property]
    ensures { result.now ≡ spec.properties_in packet.now }
{
    match packet {
        Packet::Response(response) => match &response.body {
            Body::Properties(properties) => properties.as_slice(),
            _ => &[],
        },
        _ => &[],
    }
}

/// Whether this is the fullname of a property.
fn is_named(name: &[u8], property: &Property) -> bool
    ensures { result ≡ spec.is_named name.now property.now.fullname }
{
    match &property.fullname {
        Some(own) => own.as_slice() == name,
        None => false,
    }
}

/// The first property of this fullname among these and those that are nested in them.
#[cycle(finding)]
fn property_among<'a>(name: &[u8], properties: &'a [Property]) -> Option<&'a Property>
    ensures { option_map (λ found. spec.own_content found.now.shape) result
        ≡ spec.first_some (map (spec.content_within name.now) properties.now) }
{
    for property in properties {
        if let Some(found) = property_within(name, property) {
            return Some(found);
        }
    }
    None
}

/// The property, where it has this fullname, or else the first that is nested in it and has it.
#[cycle(finding)]
fn property_within<'a>(name: &[u8], property: &'a Property) -> Option<&'a Property>
    ensures { option_map (λ found. spec.own_content found.now.shape) result
        ≡ spec.content_within name.now property.now }
{
    if is_named(name, property) {
        return Some(property);
    }
    match &property.shape {
        Shape::Array { nested, .. } => property_among(name, nested.as_slice()),
        _ => None,
    }
}

/// The content of a value, decoded; that of an array is empty.
fn content_of(alloc: Global, shape: &Shape) -> Result<Bytes, Memory>
    ensures { IfOk result (λ content. content ≡ spec.own_content shape.now) }
{
    match shape {
        Shape::Null => Bytes::from_slice(alloc, b""),
        Shape::Bool(false) => Bytes::from_slice(alloc, b"0"),
        Shape::Bool(true) => Bytes::from_slice(alloc, b"1"),
        Shape::Int(number) => Bytes::from_slice(alloc, number.to_string(alloc)?.as_bytes()),
        Shape::Text { size: _, front } => front.try_clone(),
        Shape::Array { .. } => Bytes::from_slice(alloc, b""),
    }
}

/// The content of the first property of this fullname.
pub(crate) fn content_in(
    alloc: Global,
    name: &[u8],
    packet: &Packet,
) -> Result<Option<Bytes>, Memory>
    ensures { IfOk result (λ content. content ≡ spec.content_in name.now packet.now) }
{
    match property_among(name, properties_in(packet)) {
        None => Ok(None),
        Some(property) => Ok(Some(content_of(alloc, &property.shape)?)),
    }
}
