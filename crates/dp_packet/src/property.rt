//! Properties as typed values.
use dp_bytes::{Bytes, Items};

/// A property as a packet shows it: the value of a variable or of an array's entry, or of an
/// evaluated expression.
#[cycle(property)]
#[derive(Debug, Drop)]
pub struct Property {
    /// What the user calls it; none for the value of an expression.
    pub name: Option<Bytes>,
    /// The name by which a command can ask for it.
    pub fullname: Option<Bytes>,
    pub shape: Shape,
}

/// What the start tag of a property tells of its value: the type, and what goes with it.
#[derive(Clone, Copy, Debug)]
pub enum ValueKind {
    Null,
    Bool,
    Int,
    /// The length of the whole text in bytes.
    Text(u64),
    /// The number of all entries, and which page of `pagesize` entries is shown, counted from 0.
    Array {
        count: u64,
        page: u64,
        pagesize: u64,
    },
}

/// The value of a property, as far as it is shown.
#[cycle(property)]
#[derive(Debug, Drop)]
pub enum Shape {
    Null,
    Bool(bool),
    Int(i64),
    /// The length of the whole text in bytes, and its first bytes.
    Text {
        size: u64,
        front: Bytes,
    },
    /// The number of all entries, and those of one page of `pagesize` entries, counted from 0.
    Array {
        count: u64,
        page: u64,
        pagesize: u64,
        nested: Items<Property>,
    },
}
