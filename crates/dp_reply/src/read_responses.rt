//! Responses as they are read.

ghost use Rattle.std.specs.Prelude.{◌≡◌, ◌≤◌, IfOk, option_copied, filter};
ghost use Rattle.dp_reply.specs.Contents as contents;
ghost use Rattle.dp_reply.specs.Readings as spec;
ghost use Rattle.dp_reply.specs.Verdict.{Finds};

use crate::contents::{
    attribute, has_no_elements, has_no_words, is_named, is_namespace, number_at,
    number_of_32_bits_at, only, text, words,
};
use crate::errors::ReplyError;
use crate::lists::{Entry, entries};
use crate::read_breakpoints::breakpoint_in;
use crate::read_properties::property_in;
use dp_bytes::{Bytes, Items, Memory};
use dp_markup::{Element, Node, same_text};
use dp_packet::{Body, BreakLine, Property, Response, StackLine};
use std::alloc::Global;

/// Reads a frame of the stack; refuses an element of another name, or without one of the attributes.
#[tactic(auto, unfolding(crate::specs::Readings::stack_in))]
fn stack_in(alloc: Global, e: &Element) -> Result<StackLine, ReplyError>
    ensures { Finds (λ line. line) result (spec.stack_in e.now) }
{
    if !is_named(e, b"stack") {
        return Err(ReplyError::NotDbgp);
    }
    Ok(StackLine {
        level: number_of_32_bits_at(e, b"level")?,
        uri: text(alloc, e, b"filename")?,
        line: number_of_32_bits_at(e, b"lineno")?,
        place: text(alloc, e, b"where")?,
    })
}

/// Reads the name and the id of a context; refuses an element of another name, or without one of them.
#[tactic(auto, unfolding(crate::specs::Readings::context_in))]
fn context_in(alloc: Global, e: &Element) -> Result<(Bytes, u32), ReplyError>
    ensures { Finds (λ context. context) result (spec.context_in e.now) }
{
    if !is_named(e, b"context") {
        return Err(ReplyError::NotDbgp);
    }
    let name = text(alloc, e, b"name")?;
    let id = number_of_32_bits_at(e, b"id")?;
    Ok((name, id))
}

impl Entry for StackLine {
    ghost entry = { spec.stack_in };

    fn of(alloc: Global, e: &Element) -> Result<StackLine, ReplyError> {
        stack_in(alloc, e)
    }
}

impl Entry for (Bytes, u32) {
    ghost entry = { spec.context_in };

    fn of(alloc: Global, e: &Element) -> Result<(Bytes, u32), ReplyError> {
        context_in(alloc, e)
    }
}

impl Entry for Property {
    ghost entry = { spec.property_in };

    fn of(alloc: Global, e: &Element) -> Result<Property, ReplyError> {
        property_in(alloc, e)
    }
}

impl Entry for BreakLine {
    ghost entry = { spec.breakpoint_in };

    fn of(alloc: Global, e: &Element) -> Result<BreakLine, ReplyError> {
        breakpoint_in(alloc, e)
    }
}

/// The number of an error.
pub(crate) fn error_in(found: Option<&Element>, name: &[u8], most: u64) -> Result<u64, ReplyError>
    ensures found { Finds (λ n. n) result
        (spec.error_of name.now most (option_copied found.entry)) }
    ensures bound { IfOk result (λ n. n ≤ most) }
{
    match found {
        Some(e) => {
            if is_named(e, b"error") {
                number_at(e, name, most)
            } else {
                Err(ReplyError::NotDbgp)
            }
        }
        None => Err(ReplyError::NotDbgp),
    }
}

/// Reads a body that is one error, for its code; refuses any other.
fn fault_in(nodes: &[Node]) -> Result<Body, ReplyError>
    ensures { Finds (λ body. body) result (spec.fault_in (contents.elements nodes.now)) }
{
    let code = error_in(only(nodes)?, b"code", u16::MAX as u64)?;
    Ok(Body::Fault(code as u16))
}

/// Reads a body of frames of the stack; refuses any other element of DBGp's.
fn stacks_in(alloc: Global, nodes: &[Node]) -> Result<Body, ReplyError>
    ensures { Finds (λ body. body) result (spec.stacks_in (contents.elements nodes.now)) }
{
    Ok(Body::Stacks(entries(alloc, nodes)?))
}

/// Reads a body of contexts; refuses any other element of DBGp's.
fn contexts_in(alloc: Global, nodes: &[Node]) -> Result<Body, ReplyError>
    ensures { Finds (λ body. body) result (spec.contexts_in (contents.elements nodes.now)) }
{
    Ok(Body::Contexts(entries(alloc, nodes)?))
}

/// Reads a body of properties; refuses any other element of DBGp's.
fn properties_in(alloc: Global, nodes: &[Node]) -> Result<Body, ReplyError>
    ensures { Finds (λ body. body) result (spec.properties_in (contents.elements nodes.now)) }
{
    Ok(Body::Properties(entries(alloc, nodes)?))
}

/// Reads a body of breakpoints; refuses any other element of DBGp's.
fn breakpoints_in(alloc: Global, nodes: &[Node]) -> Result<Body, ReplyError>
    ensures { Finds (λ body. body) result (spec.breakpoints_in (contents.elements nodes.now)) }
{
    Ok(Body::Breakpoints(entries(alloc, nodes)?))
}

/// Reads a body of contexts, or else of properties, or else of breakpoints; refuses any other.
#[tactic(auto, unfolding(crate::specs::Readings::rows_in))]
fn rows_in(alloc: Global, nodes: &[Node]) -> Result<Body, ReplyError>
    ensures { Finds (λ body. body) result (spec.rows_in (contents.elements nodes.now)) }
{
    match contexts_in(alloc, nodes) {
        Err(ReplyError::NotDbgp) => match properties_in(alloc, nodes) {
            Err(ReplyError::NotDbgp) => breakpoints_in(alloc, nodes),
            found => found,
        },
        found => found,
    }
}

/// An error, or elements of one kind.
#[tactic(auto, unfolding(crate::specs::Readings::list_in))]
fn list_in(alloc: Global, nodes: &[Node]) -> Result<Body, ReplyError>
    ensures { Finds (λ body. body) result (spec.list_in (contents.elements nodes.now)) }
{
    match fault_in(nodes) {
        Err(ReplyError::NotDbgp) => match stacks_in(alloc, nodes) {
            Err(ReplyError::NotDbgp) => rows_in(alloc, nodes),
            found => found,
        },
        found => found,
    }
}

/// What stands in a response.
#[tactic(auto, unfolding(crate::specs::Readings::body_of))]
fn body_in(alloc: Global, nodes: &[Node]) -> Result<Body, ReplyError>
    ensures { Finds (λ body. body) result
        (spec.body_of (contents.elements nodes.now) (contents.words nodes.now)) }
{
    match (has_no_elements(nodes), has_no_words(nodes)) {
        (true, true) => Ok(Body::Nothing),
        (true, false) => Ok(Body::Plain(words(alloc, nodes)?)),
        (false, true) => list_in(alloc, nodes),
        (false, false) => Err(ReplyError::NotDbgp),
    }
}

/// Whether a response keeps the attribute of this name.
fn is_own(name: &[u8]) -> bool
    ensures { result ≡ spec.is_own_name name.now }
{
    !(is_namespace(name) || same_text(name, b"command") || same_text(name, b"transaction_id"))
}

/// Copies of the attributes that a response keeps, in their order.
fn own_attributes(
    alloc: Global,
    attributes: &[(Bytes, Bytes)],
) -> Result<Items<(Bytes, Bytes)>, Memory>
    ensures { IfOk result (λ own. own ≡ filter spec.is_own attributes.now) }
{
    let mut own = Vec::new(alloc);
    for attribute in attributes {
        if is_own(attribute.0.as_slice()) {
            let name = Bytes::from_slice(alloc, attribute.0.as_slice())?;
            let value = Bytes::from_slice(alloc, attribute.1.as_slice())?;
            own.push((name, value))?;
        }
    }
    Ok(Items::of(own))
}

/// The response that an element is.
#[tactic(auto, unfolding(crate::specs::Readings::response_in))]
pub(crate) fn response_in(alloc: Global, e: &Element) -> Result<Response, ReplyError>
    ensures { Finds (λ response. response) result (spec.response_in e.now) }
{
    let command = text(alloc, e, b"command")?;
    let id = text(alloc, e, b"transaction_id")?;
    let body = body_in(alloc, e.children.as_slice())?;
    let attributes = own_attributes(alloc, e.attributes.as_slice())?;
    Ok(Response {
        command,
        id,
        attributes,
        body,
    })
}
