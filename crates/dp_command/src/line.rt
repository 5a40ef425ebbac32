//! A command line.

use dp_bytes::{Bytes, Items};

/// A command line: the command's name, its options in the order given, and the bytes that its
/// payload decodes to. DBGp 1.0, "Command Line Format".
#[derive(Debug, Drop)]
pub struct Line {
    /// The command's name: 1 to 64 of `a` to `z`, `0` to `9` and `_`.
    pub name: Bytes,
    /// Each option's letter and value; a letter may stand more than once.
    pub options: Items<(u8, Bytes)>,
    /// What stands behind `--`, decoded from base64.
    pub payload: Option<Bytes>,
}
