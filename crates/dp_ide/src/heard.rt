//! What the player has heard.

use dp_markup::Element;
use dp_packet::Packet;

/// What a packet's text says: its element, and the packet that this is.
#[derive(Debug, Drop)]
pub(crate) struct Message {
    pub(crate) root: Element,
    pub(crate) packet: Packet,
}

/// The last message, and the program's output since it was last asked for.
#[derive(Debug, Drop)]
pub(crate) struct Heard {
    pub(crate) last: Message,
    pub(crate) output: Vec<u8>,
}
