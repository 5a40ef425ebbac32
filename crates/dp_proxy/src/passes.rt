//! What an act of a session is answered.
ghost use Rattle.std.specs.Prelude.{[], ◌∷◌, ◌++◌, List, IfOk};
ghost use Rattle.dp_proxy.specs.declared.events.Act.{Act as OneAct};
ghost use Rattle.dp_proxy.specs.declared.events.Act.TheVariants as acted;
ghost use Rattle.dp_proxy.specs.inner.Lanes.{BrokenPlace, FollowBoth};
ghost use Rattle.dp_proxy.specs.inner.Acts.{Passes};

use crate::events::{Act, Effect};
use dp_bytes::{Bytes, Memory};
use dp_lanes::{Lane, bad_place, carry};
use std::alloc::Global;

/// What an act of a session is answered, and whether it ends the session.
#[derive(Debug, Drop)]
pub(crate) enum Passing {
    /// This; the session goes on.
    Answered(Effect),
    /// Nothing; the link has closed.
    Closed,
    /// The link is broken at this place of its stream.
    Broken(u64),
}

/// Where a link is broken: in the lane of commands, or else in that of packets. Takes no memory.
fn broken_place(up: &Lane, down: &Lane) -> Option<u64>
    ensures { (acts : List OneAct) → FollowBoth acts up.now down.now → BrokenPlace acts result }
{
    match bad_place(down) {
        Some(offset) => Some(offset),
        None => bad_place(up),
    }
}

/// The IDE gives bytes.
fn give(alloc: Global, up: &Lane, down: &mut Lane, bytes: &Bytes) -> Result<Passing, Memory>
    ensures { (acts : List OneAct) → FollowBoth acts up.now down.old → IfOk result (λ passing.
        Passes acts (acted.Given bytes.now) passing
        × FollowBoth (acts ++ acted.Given bytes.now ∷ []) up.now down.new) }
{
    let frames = carry(alloc, down, bytes.as_slice())?;
    let out = Bytes::of(frames);
    if !out.is_empty() {
        return Ok(Passing::Answered(Effect::ToEngine(out)));
    }
    match broken_place(up, down) {
        Some(offset) => Ok(Passing::Broken(offset)),
        None => Ok(Passing::Answered(Effect::Nothing)),
    }
}

/// Bytes were read of the engine.
fn read(alloc: Global, up: &mut Lane, down: &Lane, bytes: &Bytes) -> Result<Passing, Memory>
    ensures { (acts : List OneAct) → FollowBoth acts up.old down.now → IfOk result (λ passing.
        Passes acts (acted.Moved bytes.now) passing
        × FollowBoth (acts ++ acted.Moved bytes.now ∷ []) up.new down.now) }
{
    let frames = carry(alloc, up, bytes.as_slice())?;
    let out = Bytes::of(frames);
    if !out.is_empty() {
        return Ok(Passing::Answered(Effect::ToIde(out)));
    }
    match broken_place(up, down) {
        Some(offset) => Ok(Passing::Broken(offset)),
        None => Ok(Passing::Answered(Effect::Nothing)),
    }
}

/// The link closes. Takes no memory.
fn close(up: &Lane, down: &Lane) -> Passing
    ensures { (acts : List OneAct) → FollowBoth acts up.now down.now → Passes acts acted.Closed result }
{
    match broken_place(up, down) {
        Some(offset) => Passing::Broken(offset),
        None => Passing::Closed,
    }
}

/// An act on the link of a session whose lanes these are.
pub(crate) fn pass(
    alloc: Global,
    up: &mut Lane,
    down: &mut Lane,
    act: &Act,
) -> Result<Passing, Memory>
    ensures { (acts : List OneAct) → FollowBoth acts up.old down.old → IfOk result (λ passing.
        Passes acts act.now passing × FollowBoth (acts ++ act.now ∷ []) up.new down.new) }
{
    match act {
        Act::Given(bytes) => give(alloc, up, down, bytes),
        Act::Moved(bytes) => read(alloc, up, down, bytes),
        Act::Closed => Ok(close(up, down)),
        Act::Ide(_) => Ok(Passing::Answered(Effect::Nothing)),
        Act::Engine(_) => Ok(Passing::Answered(Effect::Nothing)),
    }
}
