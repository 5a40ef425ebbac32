//! Calls of the crates of proxies.

use dp_bytes::{Bytes, Memory};
use dp_events::{Events, ListError};
use dp_lanes::{Lane, LaneKind, carry};
use dp_proxy::{Act, Effect, Event, Proxy, ProxyError};
use dp_registry::{Refusal, Registry};
use std::alloc::Global;

/// A key is registered, and an engine admitted under it.
pub(crate) fn dp_registry(alloc: Global) -> Result<String, Refusal> {
    // call
    let mut registry = Registry::new(alloc);
    registry.register(b"10.0.0.1", 9000, b"K", false)?;
    let pass = registry.admit(b"K")?;
    let port = pass.port;
    // end
    let answer = format!(in alloc; "{port}")?;
    Ok(answer)
}

/// A lane passes whole frames alone.
pub(crate) fn dp_lanes(alloc: Global) -> Result<String, Memory> {
    // call
    let mut lane = Lane::new(alloc, LaneKind::Down);
    let first = carry(alloc, &mut lane, b"status -i 1\0run")?;
    let second = carry(alloc, &mut lane, b" -i 2\0")?;
    // end
    let (first, second) = (first.len(), second.len());
    format!(in alloc; "{first} and {second} bytes")
}

/// An event leads to an effect.
pub(crate) fn dp_proxy(alloc: Global) -> Result<String, ProxyError> {
    // call: nobody has registered the key
    let act = Act::Engine(Bytes::from_slice(alloc, b"K")?);
    let mut proxy = Proxy::new(alloc);
    let effect = proxy.step(&Event { link: 1, act })?;
    // end
    let is_turned = matches!(effect, Effect::Turned(_));
    let answer = format!(in alloc; "{is_turned}")?;
    Ok(answer)
}

/// A list of events is read.
pub(crate) fn dp_events(alloc: Global) -> Result<String, ListError> {
    // call
    let list = Events::read(alloc, b"ide 1 10.0.0.1\nsay 1 proxyinit -p 9000 -k K\n")?;
    let count = list.events().len();
    // end
    let answer = format!(in alloc; "{count} events")?;
    Ok(answer)
}
