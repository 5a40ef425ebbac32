//! Calls of markup and packets: what is read is written again.

use dp_markup::{Element, MarkupError, head_attribute, read, write};
use dp_packet::{Packet, has_message, text_of, text_size};
use dp_reply::{ReplyError, packet_of};
use dp_rows::{Memory, Row};
use std::alloc::Global;

/// Why bytes are no markup.
fn refusal(alloc: Global, error: &MarkupError) -> Result<String, Memory> {
    match error {
        MarkupError::BadMarkup { offset } => format!(in alloc; "BadMarkup {offset}"),
        MarkupError::TooDeep => String::from_str(alloc, "TooDeep"),
        MarkupError::Memory => Err(Memory),
    }
}

/// The canonical text of an element.
fn written(alloc: Global, element: &Element) -> Result<String, Memory> {
    let text = write(alloc, element)?;
    String::from_utf8_lossy(alloc, text.as_slice())
}

/// The canonical text of the element that is read.
pub(crate) fn told_markup(alloc: Global, input: &[u8]) -> Result<String, Memory> {
    match read(alloc, input) {
        Ok(element) => written(alloc, &element),
        Err(error) => refusal(alloc, &error),
    }
}

/// The value of an attribute.
fn told_value(alloc: Global, value: &[u8]) -> Result<String, Memory> {
    let value = String::from_utf8_lossy(alloc, value)?;
    format!(in alloc; "value {value}")
}

/// The value of the attribute of this name, of the root of that name.
fn told_attribute(alloc: Global, input: &[u8], root: &[u8], name: &[u8]) -> Result<String, Memory> {
    match head_attribute(alloc, input, root, name) {
        Ok(Some(value)) => told_value(alloc, value.as_slice()),
        Ok(None) => String::from_str(alloc, "none"),
        Err(error) => refusal(alloc, &error),
    }
}

/// The value of the attribute that the field `name` names, of the root that `root` names.
pub(crate) fn told_head(alloc: Global, row: &Row<'_>, input: &[u8]) -> Result<String, Memory> {
    let root = row.bytes(alloc, b"root")?;
    let name = row.bytes(alloc, b"name")?;
    told_attribute(alloc, input, root.as_slice(), name.as_slice())
}

/// The frame of a packet, with the length that is counted of it.
fn framed(alloc: Global, packet: &Packet) -> Result<String, Memory> {
    if !has_message(packet) {
        return String::from_str(alloc, "a code without a message");
    }
    let length = text_size(packet);
    let text = text_of(alloc, packet)?;
    let text = String::from_utf8_lossy(alloc, text.as_slice())?;
    format!(in alloc; "{length}\0{text}\0")
}

/// The frame of the packet that is read, with the length that is counted of it.
pub(crate) fn told_packet(alloc: Global, input: &[u8]) -> Result<String, Memory> {
    match packet_of(alloc, input) {
        Ok(packet) => framed(alloc, &packet),
        Err(ReplyError::NotDbgp) => String::from_str(alloc, "NotDbgp"),
        Err(ReplyError::Memory) => Err(Memory),
    }
}
