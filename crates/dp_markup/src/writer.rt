//! Writing elements in one form.

ghost use Rattle.std.specs.Prelude.{◌≡◌, ◌++◌, IfOk, OnOk, codes};
ghost use Rattle.std.specs.List.{flat_map};
ghost use Rattle.dp_markup.specs.Outputs.{behind};
ghost use Rattle.dp_markup.specs.Texts.{attribute_text, element_text, node_text, nodes_text, written};

use crate::Memory;
use crate::outputs::{Output, TextOutput, put_attribute, put_escaped};
use crate::tree::{Element, Node};
use dp_bytes::Bytes;
use std::alloc::Global;

/// The canonical text of an element, without a declaration: one start tag and one end tag for each
/// element, values in double quotes, and each byte that is no plain one as a reference.
#[tactic(auto, using(crate::proofs::Trees::written_is))]
pub fn write(alloc: Global, e: &Element) -> Result<Bytes, Memory>
    ensures { IfOk result (λ text. text ≡ written e.now) }
{
    let mut out = TextOutput {
        alloc,
        text: Vec::new(alloc),
    };
    put_element(&mut out, e)?;
    Ok(Bytes::of(out.text))
}

/// Puts the canonical text of an element, with all that stands in it.
#[cycle(writing)]
fn put_element<O: Output>(out: &mut O, element: &Element) -> Result<(), O::Error>
    ensures { OnOk result (O.seen out.new ≡ behind (O.seen out.old)
        (element_text element.now.name element.now.attributes (nodes_text element.now.children))) }
{
    put_start(out, element.name.as_slice(), element.attributes.as_slice())?;
    put_nodes(out, element.children.as_slice())?;
    put_close(out, element.name.as_slice())
}

/// Puts the canonical text of nodes, in their order.
#[cycle(writing)]
fn put_nodes<O: Output>(out: &mut O, nodes: &[Node]) -> Result<(), O::Error>
    ensures { OnOk result (O.seen out.new ≡ behind (O.seen out.old) (nodes_text nodes.now)) }
{
    for node in nodes {
        put_node(out, node)?;
    }
    Ok(())
}

/// Puts the canonical text of a node: a text with references, or a child.
#[cycle(writing)]
fn put_node<O: Output>(out: &mut O, node: &Node) -> Result<(), O::Error>
    ensures { OnOk result (O.seen out.new ≡ behind (O.seen out.old) (node_text node.now)) }
{
    match node {
        Node::Text(text) => put_escaped(out, text.as_slice()),
        Node::Child(child) => put_element(out, child),
    }
}

/// Puts a start tag.
fn put_start<O: Output>(
    out: &mut O,
    name: &[u8],
    attributes: &[(Bytes, Bytes)],
) -> Result<(), O::Error>
    ensures { OnOk result (O.seen out.new ≡ behind (O.seen out.old)
        (codes "<" ++ name.now ++ flat_map attribute_text attributes.now ++ codes ">")) }
{
    put_open(out, name)?;
    put_attributes(out, attributes)?;
    out.put(b">")
}

/// Puts the canonical text of attributes, in their order.
pub fn put_attributes<O: Output>(out: &mut O, attributes: &[(Bytes, Bytes)]) -> Result<(), O::Error>
    ensures { OnOk result (O.seen out.new ≡ behind (O.seen out.old) (flat_map attribute_text attributes.now)) }
{
    for attribute in attributes {
        put_attribute(out, attribute.0.as_slice(), attribute.1.as_slice())?;
    }
    Ok(())
}

/// Puts how a start tag begins: `<` and the name.
pub fn put_open<O: Output>(out: &mut O, name: &[u8]) -> Result<(), O::Error>
    ensures { OnOk result (O.seen out.new ≡ behind (O.seen out.old) (codes "<" ++ name.now)) }
{
    out.put(b"<")?;
    out.put(name)
}

/// Puts an end tag.
pub fn put_close<O: Output>(out: &mut O, name: &[u8]) -> Result<(), O::Error>
    ensures { OnOk result (O.seen out.new ≡ behind (O.seen out.old) (codes "</" ++ name.now ++ codes ">")) }
{
    out.put(b"</")?;
    out.put(name)?;
    out.put(b">")
}
