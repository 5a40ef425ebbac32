//! Properties as they are read.

ghost use Rattle.dp_markup.specs.declared.tree.Node.TheViews.{out-Node};
ghost use Rattle.dp_reply.specs.Contents.{each, elements, elements_of};
ghost use Rattle.dp_reply.specs.Readings as spec;
ghost use Rattle.dp_reply.specs.Verdict.{Finds, behind};

use crate::contents::{
    attribute, bytes, element_in, flag, has_no_words, is_named, number_at, optional_text, text_in,
};
use crate::errors::ReplyError;
use dp_bytes::{Items, int_of_text};
use dp_markup::{Element, Node, level_limit, same_text};
use dp_packet::{Property, Shape};
use std::alloc::Global;

/// Reads the boolean of a property; refuses any text but `0` and `1`.
fn bool_in(alloc: Global, e: &Element) -> Result<Shape, ReplyError>
    ensures { Finds (λ s. s) result (spec.bool_in e.now) }
{
    let text = text_in(alloc, e)?;
    Ok(Shape::Bool(flag(text.as_slice())?))
}

/// Reads the integer of a property; refuses a text that is no integer of 64 bits in its shortest form.
fn int_in(alloc: Global, e: &Element) -> Result<Shape, ReplyError>
    ensures { Finds (λ s. s) result (spec.int_in e.now) }
{
    let text = text_in(alloc, e)?;
    match int_of_text(text.as_slice()) {
        Some(number) => Ok(Shape::Int(number)),
        None => Err(ReplyError::NotDbgp),
    }
}

/// Reads the text of a property from base64, and its size; refuses more bytes than the size.
fn string_in(alloc: Global, e: &Element) -> Result<Shape, ReplyError>
    ensures { Finds (λ s. s) result (spec.string_in e.now) }
{
    let size = number_at(e, b"size", u64::MAX)?;
    let text = text_in(alloc, e)?;
    let front = bytes(alloc, text.as_slice())?;
    if front.len() as u64 <= size {
        Ok(Shape::Text { size, front })
    } else {
        Err(ReplyError::NotDbgp)
    }
}

/// Reads the property of at most so many levels that a node is, if it is an element of DBGp's, behind those found.
#[cycle(reading)]
fn put(
    alloc: Global,
    found: &mut Vec<Property>,
    node: &Node,
    level: usize,
) -> Result<(), ReplyError>
    ensures { Finds (λ _. found.new.items) result
        (behind found.old.items (each (spec.property_within level) (elements_of (out-Node node.now)))) }
{
    if let Some(e) = element_in(node) {
        found.push(property(alloc, e, level)?)?;
    }
    Ok(())
}

/// Reads the properties of at most so many levels among nodes; refuses any other element of DBGp's.
#[cycle(reading)]
fn nested(alloc: Global, nodes: &[Node], level: usize) -> Result<Items<Property>, ReplyError>
    ensures { Finds (λ found. found) result
        (each (spec.property_within level) (elements nodes.now)) }
{
    let mut found = Vec::new(alloc);
    for node in nodes {
        put(alloc, &mut found, node, level)?;
    }
    Ok(Items::of(found))
}

/// Reads the array of a property: its number of entries, its page, and the entries shown; refuses text beside them.
#[cycle(reading)]
fn array_in(alloc: Global, e: &Element, level: usize) -> Result<Shape, ReplyError>
    ensures { Finds (λ s. s) result (spec.array_in (spec.property_within level) e.now) }
{
    let count = number_at(e, b"numchildren", u64::MAX)?;
    let page = number_at(e, b"page", u64::MAX)?;
    let pagesize = number_at(e, b"pagesize", u64::MAX)?;
    if !has_no_words(e.children.as_slice()) {
        return Err(ReplyError::NotDbgp);
    }
    let nested = nested(alloc, e.children.as_slice(), level)?;
    Ok(Shape::Array {
        count,
        page,
        pagesize,
        nested,
    })
}

/// The value of a property of this type.
#[cycle(reading)]
fn shape_in(alloc: Global, type_name: &[u8], e: &Element, level: usize) -> Result<Shape, ReplyError>
    ensures { Finds (λ s. s) result
        (spec.shape_in (spec.property_within level) type_name.now e.now) }
{
    if same_text(type_name, b"null") {
        Ok(Shape::Null)
    } else if same_text(type_name, b"bool") {
        bool_in(alloc, e)
    } else if same_text(type_name, b"int") {
        int_in(alloc, e)
    } else if same_text(type_name, b"string") {
        string_in(alloc, e)
    } else if same_text(type_name, b"array") {
        array_in(alloc, e, level)
    } else {
        Err(ReplyError::NotDbgp)
    }
}

/// Reads a property, those in it of at most so many levels; refuses an element of another name.
#[cycle(reading)]
fn property_at(alloc: Global, e: &Element, level: usize) -> Result<Property, ReplyError>
    ensures { Finds (λ p. p) result (spec.property_around (spec.property_within level) e.now) }
{
    if !is_named(e, b"property") {
        return Err(ReplyError::NotDbgp);
    }
    let shape = shape_in(alloc, attribute(e, b"type")?, e, level)?;
    Ok(Property {
        name: optional_text(alloc, e, b"name")?,
        fullname: optional_text(alloc, e, b"fullname")?,
        shape,
    })
}

/// Reads a property of at most so many levels; refuses one of more.
#[cycle(reading)]
#[tactic(auto, unfolding(crate::specs::Readings::property_within))]
fn property(alloc: Global, e: &Element, level: usize) -> Result<Property, ReplyError>
    ensures { Finds (λ p. p) result (spec.property_within level e.now) }
{
    if level == 0 {
        Err(ReplyError::NotDbgp)
    } else {
        property_at(alloc, e, level - 1)
    }
}

/// The property that an element is.
pub(crate) fn property_in(alloc: Global, e: &Element) -> Result<Property, ReplyError>
    ensures { Finds (λ p. p) result (spec.property_in e.now) }
{
    property(alloc, e, level_limit())
}
