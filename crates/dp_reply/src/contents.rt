//! What is found in an element that is read.

ghost use Rattle.std.specs.Prelude.{◌≡◌, ◌≤◌, ◌++◌, ◌∷◌, not, IfOk, OnOk, option_copied, option_to_list};
ghost use Rattle.dp_bytes.specs.Decimals.{decimal_in};
ghost use Rattle.dp_markup.specs.declared.tree.Node.TheViews.{out-Node};
ghost use Rattle.dp_reply.specs.Contents as spec;
ghost use Rattle.dp_reply.specs.Verdict.{Finds};

use crate::errors::ReplyError;
use base64::DecodeAllocError;
use base64::engine::general_purpose::STANDARD;
use dp_bytes::{Bytes, Memory, decimal};
use dp_markup::{Element, Node, same_text};
use std::alloc::Global;

/// Reads `0` or `1`; refuses any other text.
pub(crate) fn flag(text: &[u8]) -> Result<bool, ReplyError>
    ensures { Finds (λ b. b) result (spec.flag_in text.now) }
{
    if same_text(text, b"0") {
        Ok(false)
    } else if same_text(text, b"1") {
        Ok(true)
    } else {
        Err(ReplyError::NotDbgp)
    }
}

/// What the text is in base64.
#[tactic(auto, unfolding(base64::specs::GeneralPurpose::decoded_of))]
pub(crate) fn bytes(alloc: Global, text: &[u8]) -> Result<Bytes, ReplyError>
    ensures { Finds (λ b. b) result (spec.bytes_in text.now) }
{
    match STANDARD.decode(alloc, text) {
        Ok(bytes) => Ok(Bytes::of(bytes)),
        Err(DecodeAllocError::OutOfMemory) => Err(ReplyError::Memory),
        Err(DecodeAllocError::DecodeError(_)) => Err(ReplyError::NotDbgp),
    }
}

/// The value of the attribute of this name.
pub(crate) fn find<'a>(e: &'a Element, name: &[u8]) -> Option<&'a [u8]>
    ensures { option_copied result ≡ spec.attribute name.now e.now }
{
    for attribute in e.attributes.as_slice() {
        if same_text(attribute.0.as_slice(), name) {
            return Some(attribute.1.as_slice());
        }
    }
    None
}

/// The same, of an attribute that has to be there.
pub(crate) fn attribute<'a>(e: &'a Element, name: &[u8]) -> Result<&'a [u8], ReplyError>
    ensures { Finds (λ text. text.now) result (spec.attribute name.now e.now) }
{
    match find(e, name) {
        Some(text) => Ok(text),
        None => Err(ReplyError::NotDbgp),
    }
}

/// A copy of the value of an attribute that has to be there.
pub(crate) fn text(alloc: Global, e: &Element, name: &[u8]) -> Result<Bytes, ReplyError>
    ensures { Finds (λ text. text) result (spec.attribute name.now e.now) }
{
    let value = attribute(e, name)?;
    Ok(Bytes::from_slice(alloc, value)?)
}

/// A copy of the value of an attribute that may be missing.
pub(crate) fn optional_text(
    alloc: Global,
    e: &Element,
    name: &[u8],
) -> Result<Option<Bytes>, Memory>
    ensures { IfOk result (λ text. text ≡ spec.attribute name.now e.now) }
{
    match find(e, name) {
        Some(text) => Ok(Some(Bytes::from_slice(alloc, text)?)),
        None => Ok(None),
    }
}

/// Whether the element has this name.
pub(crate) fn is_named(e: &Element, name: &[u8]) -> bool
    ensures { result ≡ spec.is_named name.now e.now }
{
    same_text(e.name.as_slice(), name)
}

/// The number in the attribute of this name, where it is at most `most`.
pub(crate) fn number_at(e: &Element, name: &[u8], most: u64) -> Result<u64, ReplyError>
    ensures found { Finds (λ n. n) result (spec.number_at name.now most e.now) }
    ensures bound { IfOk result (λ n. n ≤ most) }
{
    let text = attribute(e, name)?;
    match decimal(text, most) {
        Some(number) => Ok(number),
        None => Err(ReplyError::NotDbgp),
    }
}

/// Reads a decimal of at most 32 bits; refuses any other text.
pub(crate) fn number_of_32_bits(text: &[u8]) -> Result<u32, ReplyError>
    ensures { Finds (λ n. n) result (decimal_in spec.most_32 text.now) }
{
    match decimal(text, u32::MAX as u64) {
        Some(number) => Ok(number as u32),
        None => Err(ReplyError::NotDbgp),
    }
}

/// Reads the number of at most 32 bits in the attribute of this name; refuses where there is none.
pub(crate) fn number_of_32_bits_at(e: &Element, name: &[u8]) -> Result<u32, ReplyError>
    ensures { Finds (λ n. n) result (spec.number_at name.now spec.most_32 e.now) }
{
    number_of_32_bits(attribute(e, name)?)
}

/// A number that may be missing.
pub(crate) fn optional_number(e: &Element, name: &[u8]) -> Result<Option<u32>, ReplyError>
    ensures { Finds (λ n. n) result
        (spec.optional_number spec.most_32 (spec.attribute name.now e.now)) }
{
    match find(e, name) {
        Some(text) => Ok(Some(number_of_32_bits(text)?)),
        None => Ok(None),
    }
}

/// Whether the attribute declares a namespace.
pub(crate) fn is_namespace(name: &[u8]) -> bool
    ensures { result ≡ spec.is_namespace name.now }
{
    same_text(name, b"xmlns") || name.starts_with(b"xmlns:")
}

/// Whether the name is of another namespace than DBGp's.
fn is_foreign(name: &[u8]) -> bool
    ensures { result ≡ spec.is_foreign name.now }
{
    name.iter().any(|b| *b == b':')
}

/// The element, if there is one of DBGp's.
pub(crate) fn element_in(node: &Node) -> Option<&Element>
    ensures { option_to_list (option_copied result) ≡ spec.elements_of (out-Node node.now) }
{
    match node {
        Node::Text(_) => None,
        Node::Child(e) => {
            if is_foreign(e.name.as_slice()) {
                None
            } else {
                Some(e)
            }
        }
    }
}

/// All texts, joined.
pub(crate) fn words(alloc: Global, nodes: &[Node]) -> Result<Bytes, Memory>
    ensures { IfOk result (λ text. text ≡ spec.words nodes.now) }
{
    let mut text = Vec::new(alloc);
    for node in nodes {
        put_words(&mut text, node)?;
    }
    Ok(Bytes::of(text))
}

/// Puts the text that a node is, and nothing for an element.
fn put_words(text: &mut Vec<u8>, node: &Node) -> Result<(), Memory>
    ensures { OnOk result (text.new.items ≡
        text.old.items ++ spec.words_of (out-Node node.now)) }
{
    match node {
        Node::Text(more) => text.extend_from_slice(more.as_slice()),
        Node::Child(_) => Ok(()),
    }
}

/// Whether there is no element of DBGp's.
pub(crate) fn has_no_elements(nodes: &[Node]) -> bool
    ensures { result ≡ spec.is_empty (spec.elements nodes.now) }
{
    for node in nodes {
        if element_in(node).is_some() {
            return false;
        }
    }
    true
}

/// Whether there is no text.
pub(crate) fn has_no_words(nodes: &[Node]) -> bool
    ensures { result ≡ spec.is_empty (spec.words nodes.now) }
{
    for node in nodes {
        if has_words(node) {
            return false;
        }
    }
    true
}

/// Whether the node is a text that is not empty.
fn has_words(node: &Node) -> bool
    ensures { result ≡ not (spec.is_empty (spec.words_of (out-Node node.now))) }
{
    match node {
        Node::Text(text) => !text.is_empty(),
        Node::Child(_) => false,
    }
}

/// The text, where no element stands beside it.
pub(crate) fn text_in(alloc: Global, e: &Element) -> Result<Bytes, ReplyError>
    ensures { Finds (λ text. text) result (spec.text_in e.now) }
{
    if !has_no_elements(e.children.as_slice()) {
        return Err(ReplyError::NotDbgp);
    }
    Ok(words(alloc, e.children.as_slice())?)
}

/// The only element, or that there is none, where no text stands beside it.
pub(crate) fn only_element(e: &Element) -> Result<Option<&Element>, ReplyError>
    ensures { Finds (λ found. option_copied found) result (spec.only_in e.now) }
{
    let nodes = e.children.as_slice();
    if !has_no_words(nodes) {
        return Err(ReplyError::NotDbgp);
    }
    only(nodes)
}

/// The only element, or that there is none.
pub(crate) fn only(nodes: &[Node]) -> Result<Option<&Element>, ReplyError>
    ensures { Finds (λ found. option_copied found) result (spec.only (spec.elements nodes.now)) }
{
    for (at, node) in nodes.iter().enumerate() {
        if let Some(e) = element_in(node) {
            return alone(e, &nodes[at + 1..]);
        }
    }
    Ok(None)
}

/// The element, where no other of DBGp's is among these nodes; refuses where there is one.
fn alone<'a>(e: &'a Element, others: &[Node]) -> Result<Option<&'a Element>, ReplyError>
    ensures { Finds (λ found. option_copied found) result
        (spec.only (e.now ∷ spec.elements others.now)) }
{
    if has_no_elements(others) {
        Ok(Some(e))
    } else {
        Err(ReplyError::NotDbgp)
    }
}
