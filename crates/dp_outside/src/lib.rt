//! The outside as this workspace meets it: what bytes are read from and written to, where files are fetched, who
//! makes links and who starts jobs. Each object counts its faults, and a call fails only where that count rose.
#![tactic(auto)]

mod absent;
mod beside;
mod bytes;
mod counts;
mod crews;
mod files;
mod ghost_list;
mod graphic_names;
mod hosts;
mod items;
mod jobs;
mod links;
mod map_shelf;
mod memory;
mod names;
mod plans;
mod shelves;
mod sinks;
mod sources;
mod sure;
mod tapes;
mod turns;

pub use absent::{NoGate, NoNet, NoSpawner};
pub use bytes::Bytes1;
pub use counts::Faults;
pub use ghost_list::GhostList;
pub use graphic_names::{HOST_LIMIT, KEY_LIMIT, is_name};
pub use hosts::Host;
pub use items::ItemJob;
pub use jobs::{Hook, Job, Spawner};
pub use links::{Dialer, Gate, Net};
pub use map_shelf::MapShelf;
pub use memory::{ByteSink, ByteSource};
pub use plans::FailPlan;
pub use shelves::{Shelf, ShelfError};
pub use sinks::Sink;
pub use sources::Source;
pub use sure::{SureByteSink, SureByteSource, SureMapShelf};
use thiserror::Error;
pub use turns::TurnSpawner;

/// Out of memory: an allocation was refused.
pub use std::alloc::AllocError as Memory;

/// A call on an object of the outside failed. The object's count of faults rose.
#[derive(Clone, Copy, Debug, PartialEq, Eq, Error)]
#[error("the outside failed")]
pub struct Failed;
