//! How far the parts of a text have been read.

use crate::found::Found;
use crate::lists::Growing;
use crate::tree::Node;
use dp_bytes::{Bytes, Items};

/// How far a start tag has been read: its attributes so far, and whether white space came last.
#[derive(Debug, Drop)]
pub(crate) struct Tag {
    pub(crate) found: Found,
    pub(crate) apart: bool,
}

/// A start tag: `is_empty` where it is the whole element, as `<a/>`.
#[derive(Debug, Drop)]
pub struct StartTag {
    pub name: Bytes,
    pub attributes: Items<(Bytes, Bytes)>,
    pub is_empty: bool,
}

/// How far the content of an element has been read: its nodes so far, and the bytes of the text
/// that is not ended yet.
#[derive(Debug, Drop)]
pub(crate) struct Content {
    pub(crate) nodes: Growing<Node>,
    pub(crate) run: Growing<u8>,
}

/// How the number of a reference is written.
#[derive(Debug, Clone, Copy)]
pub(crate) enum Radix {
    Decimal,
    Hexadecimal,
}
