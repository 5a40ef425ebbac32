//! The packets of DBGp as typed values, and their texts.
#![tactic(auto)]

mod attributes;
mod breakpoints;
mod elements;
mod error_codes;
mod faults;
mod outputs;
mod packet;
mod parts;
mod properties;
mod property;
mod responses;
mod sizes;
mod texts;
mod uris;

pub use attributes::flag;
pub use dp_bytes::Memory;
pub use error_codes::{ErrorCode, message};
pub use faults::reason;
pub use outputs::PacketOutput;
pub use packet::{
    Body, BreakKind, BreakLine, HitRule, Init, Notify, Packet, ProxyReply, Response, StackLine,
};
pub use parts::put_attribute;
pub use properties::{put_int, put_kind};
pub use property::{Property, Shape, ValueKind};
pub use sizes::{attribute_size, break_size, short_size, text_size};
pub use texts::{has_message, text_of};
pub use uris::file_uri;
