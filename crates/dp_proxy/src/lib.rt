//! The core of a proxy between engines and IDEs: lanes that pass whole frames alone, what an IDE asks of the registry,
//! the key with which an engine comes, and the events of all links.
#![tactic(auto)]

mod acts;
mod calls;
mod errors;
mod events;
mod inits;
mod input;
mod kept;
mod laws;
mod passes;
mod proxy;
mod replies;

pub use calls::{Call, call_of};
pub use dp_bytes::Memory;
pub use dp_lanes::{Lane, LaneKind, PIECE_LIMIT};
pub use dp_registry::{Refusal, Registry};
pub use errors::{InitError, ProxyError};
pub use events::{Act, Effect, Event};
pub use inits::key_of_init;
pub use laws::all_is_handed_out;
pub use proxy::Proxy;
pub use replies::{registration, reply_of};
