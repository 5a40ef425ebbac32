//! Frames of DBGp messages, in whatever pieces they come.
#![tactic(auto)]

mod command;
mod commands;
mod errors;
mod held;
mod laws;
mod length;
mod nuls;
mod packet;
mod packets;

pub use command::command_bytes;
pub use commands::{COMMAND_LIMIT, Commands};
pub use errors::WireError;
pub use held::Held;
pub use laws::{
    commands_are_split, no_frame_begins_another, no_packet_begins_another, one_split,
    one_split_of_packets, packets_are_split,
};
pub use length::{PACKET_LIMIT, next_digit};
pub use nuls::first_nul;
pub use packet::packet_bytes;
pub use packets::Packets;
