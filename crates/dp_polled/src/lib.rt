//! What comes by a look: bytes that are read without waiting for them, in memory, and through a post between two
//! threads.
#![tactic(auto)]

mod arrivals;
mod list_polled;
mod piece;
mod polled;
mod post;
mod posted;
mod turns;

pub use dp_bytes::Memory;
pub use list_polled::ListPolled;
pub use piece::Piece;
pub use polled::{Look, Polled};
pub use post::{Post, PostSeat};
pub use posted::Posted;
