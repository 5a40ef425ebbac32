//! Packets that are read, and what is read of a packet that was written. The packets themselves are
//! those of `dp_packet`.
#![tactic(auto)]

mod contents;
mod errors;
mod lists;
mod read_breakpoints;
mod read_properties;
mod read_responses;
mod reader;

pub use dp_packet::{
    Body, BreakKind, BreakLine, HitRule, Init, Memory, Notify, Packet, Property, ProxyReply,
    Response, Shape, StackLine, file_uri, has_message, message, reason, text_of,
};
pub use errors::ReplyError;
pub use reader::{packet_in, packet_of, reread};
