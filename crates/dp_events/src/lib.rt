//! Lists of events: their text, read as the events that it spells; and large lists, drawn by a generator.
#![tactic(auto)]

mod errors;
mod event;
mod events;
mod hex;
mod readers;
mod soak;
mod spelling;

pub use dp_bytes::Memory;
pub use errors::ListError;
pub use event::{Act, Event};
pub use events::Events;
pub use soak::soak_events;
