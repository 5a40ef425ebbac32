//! The sizes of what packets are made of: counted by the same writers, before a text is made.
ghost use Rattle.std.specs.Prelude.{◌≡◌, ◌≤◌, length};
ghost use Rattle.dp_markup.specs.Texts.{attribute_text, node_text};
ghost use Rattle.dp_packet.specs.Breakpoints.{breakpoint_node};
ghost use Rattle.dp_packet.specs.Sizes.{counted, short_size_limit, short_value_limit};
ghost use Rattle.dp_packet.specs.Text.{text};

use crate::breakpoints::put_breakpoint;
use crate::packet::{BreakLine, Packet};
use crate::texts::put_packet;
use dp_markup::{Counter, put_attribute};

/// The size of ` name="value"`. A size that 64 bits do not hold is the greatest number that they hold, here and below.
/// Takes no memory.
pub fn attribute_size(name: &[u8], value: &[u8]) -> u64
    ensures { result ≡ counted (length (attribute_text (name.now, value.now))) }
{
    let mut out = Counter { left: u64::MAX };
    match put_attribute(&mut out, name, value) {
        Ok(()) => u64::MAX - out.left,
        Err(never) => match never {},
    }
}

/// The same of a name of at most 20 bytes and a value of at most 64: counted in full, and at most 500. Takes no memory.
pub fn short_size(name: &[u8], value: &[u8]) -> u64
    requires name { length name.now ≤ 20 }
    requires value { length value.now ≤ short_value_limit }
    ensures size { result ≡ length (attribute_text (name.now, value.now)) }
    ensures small { result ≤ short_size_limit }
{
    attribute_size(name, value)
}

/// The size of a breakpoint's element in a packet. Takes no memory.
pub fn break_size(line: &BreakLine) -> u64
    ensures { result ≡ counted (length (node_text (breakpoint_node line.now))) }
{
    let mut out = Counter { left: u64::MAX };
    match put_breakpoint(&mut out, line) {
        Ok(()) => u64::MAX - out.left,
        Err(never) => match never {},
    }
}

/// The size of the text of a packet: counted, so that a response can be measured before its text is made. Takes no
/// memory.
pub fn text_size(packet: &Packet) -> u64
    ensures { result ≡ counted (length (text packet.now)) }
{
    let mut out = Counter { left: u64::MAX };
    match put_packet(&mut out, packet) {
        Ok(()) => u64::MAX - out.left,
        Err(never) => match never {},
    }
}
