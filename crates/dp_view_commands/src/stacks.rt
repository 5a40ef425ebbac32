//! The stack, and the contexts by their names.

ghost use Rattle.std.specs.Prelude.{◌≡◌, [], Err, Ok, IfOk, IfSome};
ghost use Rattle.dp_packet.specs.declared.packet.Body.TheVariants as body;
ghost use Rattle.dp_view.specs.Places.{contexts as all_contexts};
ghost use Rattle.dp_view.specs.Stacks.{stack_at};
ghost use Rattle.dp_view_commands.specs.Results.{Answers};
ghost use Rattle.dp_view_commands.specs.Views as spec;

use crate::packets::{limited, none, number, respond};
use dp_bytes::{Bytes, Items, Memory};
use dp_command::Addressee;
use dp_packet::{Body, Response};
use dp_state::State;
use dp_tree::Bundle;
use dp_view::{ViewError, contexts, stack};
use std::alloc::Global;

/// The number of frames as an attribute.
fn depth_attributes(alloc: Global, state: &State) -> Result<Items<(Bytes, Bytes)>, Memory>
    ensures { IfOk result (λ made. (made, body.Nothing) ≡ spec.depth_part state.now) }
{
    number(alloc, b"depth", state.frames.len() as u64)
}

/// The number of frames.
pub(crate) fn depth_response(
    alloc: Global,
    state: &State,
    to: &Addressee,
) -> Result<Response, ViewError>
    ensures answer { Answers result (spec.answered to.now.command to.now.id (Ok (spec.depth_part state.now))) }
{
    let attributes = depth_attributes(alloc, state)?;
    limited(respond(alloc, to, attributes, Body::Nothing)?)
}

/// The lines of the stack.
pub(crate) fn stack_response(
    alloc: Global,
    bundle: &Bundle,
    state: &State,
    level: Option<u32>,
    to: &Addressee,
) -> Result<Response, ViewError>
    ensures answer { Answers result (spec.answered to.now.command to.now.id
        (spec.stack_part bundle.now state.now level)) }
    ensures at_once { IfSome (spec.code_in (stack_at bundle.now state.now level))
        (λ code. result ≡ Err (ViewError.Code code)) }
{
    let lines = stack(alloc, bundle, state, level)?;
    limited(respond(alloc, to, none(alloc), Body::Stacks(lines))?)
}

/// The contexts.
pub(crate) fn names_response(alloc: Global, to: &Addressee) -> Result<Response, ViewError>
    ensures answer { Answers result (spec.answered to.now.command to.now.id (Ok ([], body.Contexts all_contexts))) }
{
    let names = contexts(alloc)?;
    limited(respond(alloc, to, none(alloc), Body::Contexts(names))?)
}
