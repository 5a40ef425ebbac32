//! Messages of the Debug Adapter Protocol: a stream split into bodies, bodies read as requests, messages written.
#![tactic(auto)]

mod bodies;
mod body;
mod errors;
mod heads;
mod laws;
mod message;
mod request;
mod texts;

pub use bodies::Bodies;
pub use body::body_bytes;
pub use dp_bytes::Memory;
pub use errors::{BodyError, DapError};
pub use heads::BODY_LIMIT;
pub use laws::{no_body_begins_another, one_split_of_bodies};
pub use message::message_text;
pub use request::{DapRequest, request_of, whole};
pub use texts::{json_text, php_text};
