//! Byte strings, lists that own their items, and how numbers, names and quotes are spelled in bytes.
#![tactic(auto)]

mod bytes;
mod decimals;
mod integers;
mod items;
mod names;
mod quotes;
mod text;

pub use bytes::Bytes;
pub use decimals::decimal;
pub use integers::int_of_text;
pub use items::Items;
pub use names::{are_alike, without_slash};
pub use quotes::put_in_quotes;
pub use text::Text;

/// Out of memory: an allocation was refused.
pub use std::alloc::AllocError as Memory;
