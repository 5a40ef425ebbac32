//! The calls of the proxy and its parts.

use crate::lanes::told_lane;
use crate::lists::told_events;
use crate::registrations::{told_call, told_key};
use crate::registries::told_full;
use crate::steps::{told_engine, told_joined};
use dp_lanes::LaneKind;
use dp_rows::Memory;
use std::alloc::Global;

/// A call of the proxy or one of its parts.
#[derive(Clone, Copy)]
pub(crate) enum ProxyCall {
    Events,
    Asked,
    Key,
    Up,
    Down,
    Full,
    Engine,
    Given,
    Moved,
}

impl ProxyCall {
    /// What comes of the call, in words.
    pub(crate) fn answer(self, alloc: Global, input: &[u8]) -> Result<String, Memory> {
        match self {
            ProxyCall::Events => told_events(alloc, input),
            ProxyCall::Asked => told_call(alloc, input),
            ProxyCall::Key => told_key(alloc, input),
            ProxyCall::Up => told_lane(alloc, LaneKind::Up, input),
            ProxyCall::Down => told_lane(alloc, LaneKind::Down, input),
            ProxyCall::Full => told_full(alloc, input),
            ProxyCall::Engine => told_engine(alloc, input),
            ProxyCall::Given => told_joined(alloc, true, input),
            ProxyCall::Moved => told_joined(alloc, false, input),
        }
    }
}
