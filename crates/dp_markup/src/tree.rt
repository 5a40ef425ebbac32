//! Trees of elements.

use dp_bytes::{Bytes, Items};

/// An element: its name, its attributes as pairs of a name and a value, and what stands between
/// its tags.
/// Values and texts are the bytes themselves, without references.
#[cycle(tree)]
#[derive(Debug, Drop)]
pub struct Element {
    pub name: Bytes,
    pub attributes: Items<(Bytes, Bytes)>,
    pub children: Items<Node>,
}

/// What stands in an element: a text, or an element.
#[cycle(tree)]
#[derive(Debug, Drop)]
pub enum Node {
    Text(Bytes),
    Child(Element),
}
