//! All links of a replay: the proxy, and the engines behind it.
ghost use Rattle.std.specs.Prelude.{◌≡◌, [], ◌∷◌, ◌++◌, List, IfOk, OnOk};
ghost use Rattle.dp_events.specs.declared.event.Event.{Event as OneEvent};
ghost use Rattle.dp_events.specs.Lists.{AllFit, Fits};
ghost use Rattle.dp_world.specs.Alone.{Engines as Known};
ghost use Rattle.dp_world.specs.Engines.{past_of};
ghost use Rattle.dp_world.specs.inner.KeptLinks.{AreShown, IsWorldAfter, MayTake, made};
ghost use Rattle.std.specs.Map.{keys_of};

use crate::engines::Engines;
use crate::links::{brought, make, makes, pass};
use crate::shown::Shown;
use dp_bytes::Memory;
use dp_events::Event;
use dp_proxy::{Event as ProxyEvent, Proxy, ProxyError};
use indexmap::IndexMap;
use std::alloc::Global;

/// A proxy, and the links in the order in which they were made.
#[derive(Drop)]
pub(crate) struct World<S, E> {
    proxy: Proxy,
    links: IndexMap<u32, Shown<S, E>>,
}

impl<S: Drop, E: Drop> World<S, E> {
    /// Before any event. Takes no memory.
    fn new(alloc: Global) -> World<S, E>
        ensures { (engines : Known S E) → IsWorldAfter engines [] result.proxy result.links.entries }
    {
        World {
            proxy: Proxy::new(alloc),
            links: IndexMap::new(alloc),
        }
    }
}

/// It takes one event. Once memory ran out nothing is said of it.
fn take<A: Engines>(
    world: &mut World<A::Session, A::End>,
    alloc: Global,
    engines: &A,
    event: &Event,
    steps: &mut A::Steps,
) -> Result<(), Memory>
    requires { MayTake (A.known engines.now) world.old.proxy world.old.links.entries event.now }
    ensures { (events : List OneEvent)
        → IsWorldAfter (A.known engines.now) events world.old.proxy world.old.links.entries
        → Fits events event.now
        → OnOk result
        (IsWorldAfter (A.known engines.now) (events ++ event.now ∷ []) world.new.proxy world.new.links.entries) }
{
    let act = brought(alloc, &mut world.links, event)?;
    let came = ProxyEvent {
        link: event.link,
        act,
    };
    match world.proxy.step(&came) {
        Ok(effect) => {
            if makes(&event.act) {
                make(alloc, &mut world.links, engines, event, effect)
            } else {
                pass(alloc, &mut world.links, engines, event.link, effect, steps)
            }
        }
        Err(ProxyError::Memory) => Err(Memory),
        Err(ProxyError::BadInit) => Ok(()),
        Err(ProxyError::BadFrame { offset: _ }) => Ok(()),
    }
}

/// What the transcript shows of the links that these events make.
pub(crate) fn follow<A: Engines>(
    alloc: Global,
    engines: &A,
    events: &[Event],
    steps: &mut A::Steps,
) -> Result<IndexMap<u32, Shown<A::Session, A::End>>, Memory>
    requires { AllFit [] events.now }
    ensures keys { IfOk result (λ links. keys_of links.entries ≡ made events.now) }
    ensures shown { IfOk result (λ links.
        AreShown (A.known engines.now) (past_of (A.known engines.now) events.now) links.entries) }
{
    let mut world = World::new(alloc);
    'events: for event in events {
        match take(&mut world, alloc, engines, event, steps) {
            Ok(()) => {}
            Err(Memory) => {
                drop(world);
                return Err(Memory);
            }
        }
    }
    let World { proxy: _, links } = world;
    Ok(links)
}
