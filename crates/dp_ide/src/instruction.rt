//! The instructions of a script.

use dp_bytes::Bytes;

/// What an instruction asks for.
#[derive(Debug, Drop)]
pub enum Act {
    /// Sends the line, and reads packets up to the response with this id.
    Send { line: Bytes, id: Bytes },
    /// The root of the last packet has this attribute, with this value.
    Attr { name: Bytes, text: Bytes },
    /// The last response has this error code, 0 for none.
    Code(u16),
    /// The first property of this fullname in the last packet has this content, decoded.
    Prop { name: Bytes, text: Bytes },
    /// The program's output since the last such instruction is this.
    Out(Bytes),
    /// Writes the element of the last packet, and a line feed.
    Print,
}

/// An instruction, and the number of its line, from 1.
#[derive(Debug, Drop)]
pub struct Instruction {
    pub line: u64,
    pub act: Act,
}
