//! Lists of elements of one kind.

ghost use Rattle.std.specs.Prelude.{Option};
ghost use Rattle.dp_markup.specs.declared.tree.Element.{Element as Tree};
ghost use Rattle.dp_markup.specs.declared.tree.Node.TheViews.{out-Node};
ghost use Rattle.dp_reply.specs.Contents.{each, elements, elements_of};
ghost use Rattle.dp_reply.specs.Verdict.{Finds, behind};

use crate::contents::element_in;
use crate::errors::ReplyError;
use dp_bytes::Items;
use dp_markup::{Element, Node};
use std::alloc::Global;

/// What an element of a list is read as.
pub(crate) trait Entry: Sized + Drop {
    ghost entry: { Tree → Option Self };

    /// Reads the entry that an element is; refuses an element that is none.
    fn of(alloc: Global, e: &Element) -> Result<Self, ReplyError>
        ensures { Finds (λ found. found) result (entry e.now) };
}

/// Reads the element of DBGp's that a node is, if it is one, behind those found; refuses one that is no entry.
fn put<T: Entry>(alloc: Global, found: &mut Vec<T>, node: &Node) -> Result<(), ReplyError>
    ensures { Finds (λ _. found.new.items) result
        (behind found.old.items (each T.entry (elements_of (out-Node node.now)))) }
{
    if let Some(e) = element_in(node) {
        found.push(T::of(alloc, e)?)?;
    }
    Ok(())
}

/// What the elements are, where each is one of these.
pub(crate) fn entries<T: Entry>(alloc: Global, nodes: &[Node]) -> Result<Items<T>, ReplyError>
    ensures { Finds (λ found. found) result (each T.entry (elements nodes.now)) }
{
    let mut found = Vec::new(alloc);
    for node in nodes {
        put(alloc, &mut found, node)?;
    }
    Ok(Items::of(found))
}
