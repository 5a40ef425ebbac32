//! Writes that commands ask for.
ghost use Rattle.std.specs.Prelude.{◌≡◌, ◌∷◌, ◌++◌, ◌<◌, [], vec_capacity, vec_len, IfOk};
ghost use Rattle.dp_engine.specs.inner.KeptWrites.{Accepts};
ghost use Rattle.dp_write_commands.specs.Results.{IsSent};

use dp_bytes::Memory;
use dp_command::{Addressee, WriteRequest};
use dp_features::Features;
use dp_meaning::NumberedWrite;
use dp_packet::Response;
use dp_state::State;
use dp_step::evaluation;
use dp_tree::{Bundle, Expression};
use dp_value::Value;
use dp_view_commands::ViewError;
use dp_write_commands::{Evaluator, Written, write_response};
use std::alloc::Global;

/// Evaluates by small steps, so that calls within calls take no more of the stack.
struct Stepped;

impl Evaluator for Stepped {
    fn evaluation(
        alloc: Global,
        bundle: &Bundle,
        e: &Expression,
        state: &State,
    ) -> Result<(Option<Value>, State), Memory> {
        evaluation(alloc, bundle, e, state)
    }
}

/// Puts a write behind others, where there is room for it.
fn keep(writes: &mut Vec<NumberedWrite>, write: NumberedWrite)
    requires { vec_len writes.old < vec_capacity writes.old }
    ensures { writes.new.items ≡ writes.old.items ++ write ∷ [] }
{
    match writes.push(write) {
        Ok(()) => {}
        // There is room, so this is proved not to come.
        Err(_) => unreachable!(),
    }
}

/// Makes the write that a command asks for at a moment, and keeps it behind the others. Where it is refused, or memory
/// runs out, nothing has changed.
pub(crate) fn accept(
    alloc: Global,
    bundle: &Bundle,
    features: &Features,
    program: &mut State,
    writes: &mut Vec<NumberedWrite>,
    moment: u64,
    to: &Addressee,
    request: &WriteRequest,
) -> Result<Response, ViewError>
    ensures answer { Accepts bundle.now features.now program.old program.new writes.old.items writes.new.items moment
        to.now.command to.now.id request.now result }
    ensures is_sent { IfOk result IsSent }
{
    if writes.reserve(1).is_err() {
        return Err(ViewError::Memory);
    }
    match write_response::<Stepped>(alloc, bundle, features, program, to, request) {
        Ok(Written { response, write }) => {
            keep(writes, NumberedWrite { moment, write });
            Ok(response)
        }
        Err(why) => Err(why),
    }
}
