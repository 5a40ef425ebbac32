//! The links that were made, and what an event changes there.
ghost use Rattle.std.specs.Prelude.{◌≡◌, List, true, false, is_some, None, Some, IfOk, OnOk};
ghost use Rattle.dp_outside.specs.Names.{IsKey};
ghost use Rattle.dp_registry.specs.declared.entry.Entry.{Entry};
ghost use Rattle.dp_registry.specs.declared.pass.Pass.{Pass};
ghost use Rattle.dp_registry.specs.declared.refusal.Refusal.{Refusal};
ghost use Rattle.std.specs.declared.result.Result.{Result as Verdict};
ghost use Rattle.dp_events.specs.Lists.{IsFormed, makes as is_made_by};
ghost use Rattle.dp_proxy.specs.Pasts.{Link, New, lead, admitted, admission};
ghost use Rattle.dp_world.specs.Alone.{Engines as Known};
ghost use Rattle.dp_world.specs.Engines.{act_of};
ghost use Rattle.dp_world.specs.inner.Changes.{IsReadableAt, ReadsAt, IsFormedFor, IsTakenAt, AfterAt, IsAppended};
ghost use Rattle.dp_world.specs.inner.Changes.{IsMadeIn};
ghost use Rattle.dp_world.specs.inner.KeptLinks.{IsShownAt, IsReadyAt, Passes, LeadsAs, KeepsOthers, kept_at};

use crate::engine::begin;
use crate::engines::Engines;
use crate::shown::{Shown, pass_on};
use dp_bytes::{Bytes, Memory};
use dp_events::{Act, Event};
use dp_proxy::{Act as ProxyAct, Effect};
use indexmap::IndexMap;
use std::alloc::Global;

/// The next bytes of the engine of a link, at most so many; none where it has no session.
fn read<S: Drop, E: Drop>(
    alloc: Global,
    links: &mut IndexMap<u32, Shown<S, E>>,
    link: u32,
    count: u32,
) -> Result<Bytes, Memory>
    requires { IsReadableAt (kept_at links.old.entries link) }
    ensures read { IfOk result (λ bytes.
        ReadsAt (kept_at links.old.entries link) count bytes (kept_at links.new.entries link)) }
    ensures others { KeepsOthers links.old.entries links.new.entries link }
{
    match links.get_mut(&link) {
        Some(shown) => shown.read(alloc, count),
        None => Ok(Bytes::of(Vec::new(alloc))),
    }
}

/// What an event brings to the proxy.
pub(crate) fn brought<S: Drop, E: Drop>(
    alloc: Global,
    links: &mut IndexMap<u32, Shown<S, E>>,
    event: &Event,
) -> Result<ProxyAct, Memory>
    requires { IsReadableAt (kept_at links.old.entries event.now.link) }
    ensures ready { IfOk result (λ act. (engines : Known S E) (link : Link)
        → IsShownAt engines link (kept_at links.old.entries event.now.link)
        → IsReadyAt engines link act (kept_at links.new.entries event.now.link)
        × LeadsAs engines link event.now.act act) }
    ensures others { KeepsOthers links.old.entries links.new.entries event.now.link }
    ensures formed { IfOk result (λ act. IsFormed event.now.act → IsFormedFor act) }
    ensures passes { IfOk result (λ act. is_made_by event.now.act ≡ false → Passes act) }
{
    match &event.act {
        Act::Ide(host) => Ok(ProxyAct::Ide(host.try_clone()?)),
        Act::Engine(key) => Ok(ProxyAct::Engine(key.try_clone()?)),
        Act::Give(bytes) => Ok(ProxyAct::Given(bytes.try_clone()?)),
        Act::Move(count) => Ok(ProxyAct::Moved(read(alloc, links, event.link, *count)?)),
        Act::Close => Ok(ProxyAct::Closed),
    }
}

/// Whether an act makes a link.
pub(crate) fn makes(act: &Act) -> bool
    ensures { result ≡ is_made_by act.now }
{
    match act {
        Act::Ide(_) => true,
        Act::Engine(_) => true,
        _ => false,
    }
}

/// What is shown of an engine that came with a key, by what the proxy answered.
fn joined<A: Engines>(
    alloc: Global,
    engines: &A,
    key: &Bytes,
    effect: Effect,
) -> Result<Option<Shown<A::Session, A::End>>, Memory>
    requires { IsKey key.now }
    ensures { (verdict : Verdict Pass Refusal) → effect ≡ admission verdict → IfOk result (λ kept.
        (is_some kept ≡ true) × IsShownAt (A.known engines.now) (admitted key.now verdict) kept) }
{
    match effect {
        Effect::Turned(why) => {
            let key = key.try_clone()?;
            Ok(Some(Shown::Refused { key, why }))
        }
        Effect::Admitted {
            session: _,
            host,
            port,
        } => {
            let name = key.try_clone()?;
            let engine = begin(alloc, engines, key.as_slice())?;
            Ok(Some(Shown::Session {
                key: name,
                host,
                port,
                engine,
            }))
        }
        _ => Ok(None),
    }
}

/// What is shown of a link that an event may make, by what the proxy answered.
fn opened<A: Engines>(
    alloc: Global,
    engines: &A,
    act: &Act,
    effect: Effect,
) -> Result<Option<Shown<A::Session, A::End>>, Memory>
    requires { IsFormed act.now }
    ensures { (journal : List Entry) → is_made_by act.now ≡ true
        → (lead journal New (act_of (A.known engines.now) New act.now)).effect ≡ Some effect → IfOk result (λ kept.
        (is_some kept ≡ true)
        × IsShownAt (A.known engines.now) (lead journal New (act_of (A.known engines.now) New act.now)).link kept) }
{
    match act {
        Act::Ide(host) => {
            let host = host.try_clone()?;
            let reply = Bytes::of(Vec::new(alloc));
            Ok(Some(Shown::Registration { host, reply }))
        }
        Act::Engine(key) => joined(alloc, engines, key, effect),
        _ => Ok(None),
    }
}

/// Puts what is shown of a link that was not made behind the others, if something is.
fn put<S: Drop, E: Drop>(
    links: &mut IndexMap<u32, Shown<S, E>>,
    link: u32,
    kept: Option<Shown<S, E>>,
) -> Result<(), Memory>
    ensures { kept_at links.old.entries link ≡ None
        → OnOk result (IsAppended links.old.entries links.new.entries link kept) }
{
    if let Some(shown) = kept {
        drop(links.insert(link, shown)?);
    }
    Ok(())
}

/// Hands a link that was made what its act has led to.
pub(crate) fn pass<A: Engines>(
    alloc: Global,
    links: &mut IndexMap<u32, Shown<A::Session, A::End>>,
    engines: &A,
    link: u32,
    effect: Effect,
    steps: &mut A::Steps,
) -> Result<(), Memory>
    requires { IsTakenAt (kept_at links.old.entries link) effect }
    ensures others { KeepsOthers links.old.entries links.new.entries link }
    ensures after { OnOk result (AfterAt (A.known engines.now) (kept_at links.old.entries link) effect
        (kept_at links.new.entries link)) }
{
    match links.get_mut(&link) {
        Some(shown) => pass_on(shown, alloc, engines, effect, steps),
        None => Ok(()),
    }
}

/// Makes a link, by what the proxy answered.
pub(crate) fn make<A: Engines>(
    alloc: Global,
    links: &mut IndexMap<u32, Shown<A::Session, A::End>>,
    engines: &A,
    event: &Event,
    effect: Effect,
) -> Result<(), Memory>
    requires { IsFormed event.now.act }
    ensures { (journal : List Entry) → is_made_by event.now.act ≡ true
        → kept_at links.old.entries event.now.link ≡ None
        → (lead journal New (act_of (A.known engines.now) New event.now.act)).effect ≡ Some effect
        → OnOk result (IsMadeIn (A.known engines.now) links.old.entries links.new.entries event.now.link
        (lead journal New (act_of (A.known engines.now) New event.now.act)).link) }
{
    let kept = opened(alloc, engines, &event.act, effect)?;
    put(links, event.link, kept)
}
