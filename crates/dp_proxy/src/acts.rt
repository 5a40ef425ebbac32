//! What an act on one link leads to.
ghost use Rattle.std.specs.Prelude.{◌≡◌, List, ℕ, true, None, Some, Ok, IfOk, IsSome, Contains};
ghost use Rattle.dp_registry.specs.declared.entry.Entry.{Entry};
ghost use Rattle.dp_registry.specs.declared.refusal.Refusal.TheVariants as refusal;
ghost use Rattle.dp_registry.specs.Journal.{live};
ghost use Rattle.dp_outside.specs.Names.{IsHost, IsKey};
ghost use Rattle.dp_wire.specs.Frames.{has_no_nul};
ghost use Rattle.dp_proxy.specs.declared.events.Act.{Act as OneAct};
ghost use Rattle.dp_proxy.specs.declared.events.Act.TheVariants as acted;
ghost use Rattle.dp_proxy.specs.declared.events.Effect.TheVariants as effect;
ghost use Rattle.dp_proxy.specs.declared.kept.Kept.TheVariants as keep;
ghost use Rattle.dp_proxy.specs.Pasts.{Link};
ghost use Rattle.dp_proxy.specs.Pasts as pasts;
ghost use Rattle.dp_proxy.specs.Replies.{reply_frame, registered};
ghost use Rattle.dp_proxy.specs.Invariant.{IsKept, IsSound};
ghost use Rattle.dp_proxy.specs.Steps.{HasHost};
ghost use Rattle.dp_proxy.specs.inner.Lanes.{FollowBoth};
ghost use Rattle.dp_proxy.specs.inner.Acts.{Leads, LeavesOthers, IsOwn, Welcomes};

use crate::calls::is_key;
use crate::errors::ProxyError;
use crate::events::{Act, Effect};
use crate::input::{Hearing, hear};
use crate::kept::{Kept, Step};
use crate::passes::{Passing, pass as pass_on};
use crate::replies::registration;
use dp_bytes::{Bytes, Memory};
use dp_lanes::{Lane, LaneKind};
use dp_packet::{Packet, text_of};
use dp_registry::{Pass, Refusal, Registry};
use dp_wire::packet_bytes;
use std::alloc::Global;

/// Answers a command of a host, and makes the call that it names: what is sent of the reply.
fn answer(
    alloc: Global,
    registry: &mut Registry,
    host: &[u8],
    command: &[u8],
) -> Result<Bytes, Memory>
    requires { IsHost host.now }
    ensures reply { IfOk result (λ frame. frame ≡ reply_frame registry.old host.now command.now) }
    ensures journal { IfOk result (λ frame. registry.new ≡ registered registry.old host.now command.now) }
    ensures others { LeavesOthers registry.old registry.new None }
{
    let reply = registration(alloc, registry, host, command)?;
    let text = text_of(alloc, &Packet::Proxy(reply))?;
    packet_bytes(alloc, text.as_slice())
}

/// An act on the link of an IDE that asks.
fn listen(
    alloc: Global,
    registry: &mut Registry,
    host: Bytes,
    mut heard: Vec<u8>,
    act: &Act,
) -> Result<Step, Memory>
    requires { IsHost host }
    ensures leads { has_no_nul heard.items ≡ true → IfOk result
        (Leads registry.old (pasts.Asking host heard.items) act.now registry.new) }
    ensures sound { IfOk result (λ step. IsSound registry.new step.kept) }
    ensures own { IfOk result (λ step. IsOwn registry.old None step.kept) }
    ensures others { LeavesOthers registry.old registry.new None }
    ensures made { IfOk result (λ step. IsSome step.kept) }
{
    let hearing = hear(&mut heard, act)?;
    match hearing {
        Hearing::More => Ok(Step {
            kept: Some(Kept::Asking { host, heard }),
            answer: Ok(Effect::Nothing),
        }),
        Hearing::Silence => Ok(Step {
            kept: Some(Kept::Over),
            answer: Ok(Effect::Nothing),
        }),
        Hearing::Asked => {
            let name = host.as_slice();
            let command = heard.as_slice();
            let frame = answer(alloc, registry, name, command)?;
            Ok(Step {
                kept: Some(Kept::Over),
                answer: Ok(Effect::Reply(frame)),
            })
        }
    }
}

/// An act on the link of a session.
fn go_on(
    alloc: Global,
    registry: &mut Registry,
    pass: Pass,
    mut up: Lane,
    mut down: Lane,
    act: &Act,
) -> Result<Step, Memory>
    requires { Contains (live registry.old) pass.session }
    ensures leads { (key : List ℕ) (acts : List OneAct) → FollowBoth acts up down → IfOk result
        (Leads registry.old (pasts.Joined key pass acts) act.now registry.new) }
    ensures sound { IfOk result (λ step. IsSound registry.new step.kept) }
    ensures own { IfOk result (λ step. IsOwn registry.old (Some (keep.Joined pass up down)) step.kept) }
    ensures others { LeavesOthers registry.old registry.new (Some (keep.Joined pass up down)) }
    ensures made { IfOk result (λ step. IsSome step.kept) }
{
    let passing = pass_on(alloc, &mut up, &mut down, act)?;
    match passing {
        Passing::Answered(effect) => Ok(Step {
            kept: Some(Kept::Joined { pass, up, down }),
            answer: Ok(effect),
        }),
        Passing::Closed => {
            registry.dismiss(pass);
            Ok(Step {
                kept: Some(Kept::Over),
                answer: Ok(Effect::Nothing),
            })
        }
        Passing::Broken(offset) => {
            registry.dismiss(pass);
            Ok(Step {
                kept: Some(Kept::Over),
                answer: Err(ProxyError::BadFrame { offset }),
            })
        }
    }
}

/// An engine is refused.
fn refuse(why: Refusal) -> Result<Step, Memory>
    ensures known { IfOk result (λ step. why ≡ refusal.Memory → ⊥) }
    ensures step { IfOk result (λ step. step ≡ record { kept = Some keep.Over; answer = Ok (effect.Turned why) }) }
{
    match why {
        Refusal::Memory => Err(Memory),
        why => Ok(Step {
            kept: Some(Kept::Over),
            answer: Ok(Effect::Turned(why)),
        }),
    }
}

/// An engine is given a session.
fn welcome(alloc: Global, pass: Pass) -> Result<Step, Memory>
    ensures { IfOk result (Welcomes pass) }
{
    let host = Bytes::from_slice(alloc, pass.host.as_slice())?;
    let answer = Effect::Admitted {
        session: pass.session,
        host,
        port: pass.port,
    };
    let up = Lane::new(alloc, LaneKind::Up);
    let down = Lane::new(alloc, LaneKind::Down);
    Ok(Step {
        kept: Some(Kept::Joined { pass, up, down }),
        answer: Ok(answer),
    })
}

/// An engine comes with a key.
fn admit(alloc: Global, registry: &mut Registry, key: &[u8]) -> Result<Step, Memory>
    requires { IsKey key.now }
    ensures leads { IfOk result (Leads registry.old pasts.New (acted.Engine key.now) registry.new) }
    ensures sound { IfOk result (λ step. IsSound registry.new step.kept) }
    ensures own { IfOk result (λ step. IsOwn registry.old None step.kept) }
    ensures others { LeavesOthers registry.old registry.new None }
{
    match registry.admit(key) {
        Ok(pass) => welcome(alloc, pass),
        Err(why) => refuse(why),
    }
}

/// An engine comes, perhaps with no key.
fn engine(alloc: Global, registry: &mut Registry, key: &[u8]) -> Result<Step, Memory>
    ensures leads { IfOk result (Leads registry.old pasts.New (acted.Engine key.now) registry.new) }
    ensures sound { IfOk result (λ step. IsSound registry.new step.kept) }
    ensures own { IfOk result (λ step. IsOwn registry.old None step.kept) }
    ensures others { LeavesOthers registry.old registry.new None }
{
    if is_key(key) {
        admit(alloc, registry, key)
    } else {
        Ok(Step {
            kept: None,
            answer: Err(ProxyError::BadInit),
        })
    }
}

/// An IDE connects.
fn ide(alloc: Global, host: &Bytes) -> Result<Step, Memory>
    requires { IsHost host.now }
    ensures leads { (journal : List Entry) → IfOk result (Leads journal pasts.New (acted.Ide host.now) journal) }
    ensures sound { (journal : List Entry) → IfOk result (λ step. IsSound journal step.kept) }
    ensures own { (journal : List Entry) → IfOk result (λ step. IsOwn journal None step.kept) }
{
    let host = host.try_clone()?;
    let heard = Vec::new(alloc);
    Ok(Step {
        kept: Some(Kept::Asking { host, heard }),
        answer: Ok(Effect::Nothing),
    })
}

/// Nothing becomes of a link that was not made.
fn unmade() -> Step
    ensures { result ≡ record { kept = None; answer = Ok effect.Nothing } }
{
    Step {
        kept: None,
        answer: Ok(Effect::Nothing),
    }
}

/// An act on a link that was not made.
fn come(alloc: Global, registry: &mut Registry, act: &Act) -> Result<Step, Memory>
    requires { HasHost act.now }
    ensures leads { IfOk result (Leads registry.old pasts.New act.now registry.new) }
    ensures sound { IfOk result (λ step. IsSound registry.new step.kept) }
    ensures own { IfOk result (λ step. IsOwn registry.old None step.kept) }
    ensures others { LeavesOthers registry.old registry.new None }
{
    match act {
        Act::Ide(host) => ide(alloc, host),
        Act::Engine(key) => engine(alloc, registry, key.as_slice()),
        Act::Given(_) => Ok(unmade()),
        Act::Moved(_) => Ok(unmade()),
        Act::Closed => Ok(unmade()),
    }
}

/// What an act leads to, on a link of which this was kept.
pub(crate) fn handle(
    alloc: Global,
    registry: &mut Registry,
    kept: Option<Kept>,
    act: &Act,
) -> Result<Step, Memory>
    requires host { HasHost act.now }
    requires sound { IsSound registry.old kept }
    ensures leads { (link : Link) → IsKept kept link → IfOk result (Leads registry.old link act.now registry.new) }
    ensures sound { IfOk result (λ step. IsSound registry.new step.kept) }
    ensures own { IfOk result (λ step. IsOwn registry.old kept step.kept) }
    ensures others { LeavesOthers registry.old registry.new kept }
    ensures made { IfOk result (λ step. step.kept ≡ None → kept ≡ None) }
{
    match kept {
        None => come(alloc, registry, act),
        Some(Kept::Asking { host, heard }) => listen(alloc, registry, host, heard, act),
        Some(Kept::Joined { pass, up, down }) => go_on(alloc, registry, pass, up, down, act),
        Some(Kept::Over) => Ok(Step {
            kept: Some(Kept::Over),
            answer: Ok(Effect::Nothing),
        }),
    }
}
