//! The commands that look at a program.

ghost use Rattle.std.specs.Prelude.{◌≡◌, Err, IfOk, IfSome};
ghost use Rattle.dp_view_commands.specs.Results.{Answers, IsSent, refusal_at_once};
ghost use Rattle.dp_view_commands.specs.Views as spec;

use crate::source::source_response;
use crate::stacks::{depth_response, names_response, stack_response};
use crate::values::{context_response, property_response, value_response};
use dp_command::{Addressee, LookRequest};
use dp_features::Features;
use dp_packet::Response;
use dp_state::State;
use dp_tree::Bundle;
use dp_view::ViewError;
use std::alloc::Global;

/// The response to a command that looks at a program, or the code of its refusal.
#[tactic(auto, unfolding(crate::specs::Views::view_response, crate::specs::Views::view_refusal))]
fn look(
    alloc: Global,
    bundle: &Bundle,
    here: u32,
    features: &Features,
    state: &State,
    to: &Addressee,
    request: &LookRequest,
) -> Result<Response, ViewError>
    ensures answer { Answers result (spec.view_response
        bundle.now here features.now state.now to.now.command to.now.id request.now) }
    ensures at_once { IfSome
        (refusal_at_once bundle.now here features.now state.now to.now.command to.now.id request.now)
        (λ code. result ≡ Err (ViewError.Code code)) }
{
    match request {
        LookRequest::StackDepth => depth_response(alloc, state, to),
        LookRequest::StackGet { level } => stack_response(alloc, bundle, state, *level, to),
        LookRequest::ContextNames => names_response(alloc, to),
        LookRequest::ContextGet { level, context } => {
            context_response(alloc, bundle, features, state, *level, *context, to)
        }
        LookRequest::PropertyGet {
            place,
            page,
            max_data,
        } => property_response(alloc, features, state, place, *page, *max_data, to),
        LookRequest::PropertyValue { place, max_data } => {
            value_response(alloc, state, place, *max_data, to)
        }
        LookRequest::Source(range) => source_response(alloc, bundle, here, range, to),
    }
}

/// The response to a command that looks at a program: stack_depth, stack_get, context_names, context_get, property_get,
/// property_value and source. `here` is the number of the file of the moment, 0 before the first.
///
/// The codes, in their order: of stack_get 301; of context_get 301, 302; of property_get and property_value 301, 302,
/// and 300 where the name is none or nothing stands there; of source 3 where a line is 0, and 100 where there is no
/// such file. Then 300 where the text of the response would pass 16,777,216 bytes: of context_get and property_get this
/// is found before anything is made, and no stack, no file and no text of a program is so long. Values are shown as the
/// features say.
pub fn view_response(
    alloc: Global,
    bundle: &Bundle,
    here: u32,
    features: &Features,
    state: &State,
    to: &Addressee,
    request: &LookRequest,
) -> Result<Response, ViewError>
    ensures answer { Answers result (spec.view_response
        bundle.now here features.now state.now to.now.command to.now.id request.now) }
    // These refusals are reported whatever memory there is.
    ensures at_once { IfSome
        (refusal_at_once bundle.now here features.now state.now to.now.command to.now.id request.now)
        (λ code. result ≡ Err (ViewError.Code code)) }
    ensures is_sent { IfOk result IsSent }
{
    look(alloc, bundle, here, features, state, to, request)
}
