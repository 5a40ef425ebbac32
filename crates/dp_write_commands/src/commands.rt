//! Commands that write.

ghost use Rattle.std.specs.Prelude.{◌≡◌, Ok, Err, Some, IfOk, IfSome};
ghost use Rattle.dp_write_commands.specs.Requests.{requested_path as path_of_request, tree_of as spec_tree};
ghost use Rattle.dp_write_commands.specs.Requests.{requested_value as value_of_request};
ghost use Rattle.dp_command.specs.declared.command.WriteRequest.TheVariants as request;
ghost use Rattle.dp_meaning.specs.declared.writes.Write.TheVariants as write;
ghost use Rattle.dp_view.specs.Named.{named_path};
ghost use Rattle.dp_write_commands.specs.Results.{Answers, IsSent, refusal_at_once};
ghost use Rattle.dp_write_commands.specs.Responses.{code_in};
ghost use Rattle.dp_write_commands.specs.inner.Writes.{Makes, kept_by, value_of_given, with_response, with_write};

use crate::evaluator::Evaluator;
use crate::places::put;
use crate::requests::{Given, given_in, requested_path, tree_of, value_of};
use crate::responses::{evaluation_response, success};
use dp_command::{Addressee, PropertySet, WriteRequest};
use dp_features::Features;
use dp_meaning::Write;
use dp_packet::{Body, ErrorCode, Response};
use dp_state::{Path, State};
use dp_tree::{Bundle, Expression};
use dp_value::Value;
use dp_view::ViewError;
use std::alloc::Global;
use std::mem;

/// A write that was made, and the response to its command.
#[derive(Debug, Drop)]
pub struct Written {
    pub response: Response,
    pub write: Write,
}

/// A response where what it tells was done.
fn if_done(done: Result<(), ViewError>, response: Response) -> Result<Response, ViewError>
    ensures { result ≡ with_response response done }
{
    match done {
        Ok(()) => Ok(response),
        Err(why) => Err(why),
    }
}

/// Gives a place a value, and tells it.
#[tactic(auto, using(crate::proofs::MadeWrites::place_tried))]
fn make_place(
    alloc: Global,
    bundle: &Bundle,
    features: &Features,
    state: &mut State,
    to: &Addressee,
    level: u32,
    context: u32,
    path: &Path,
    value: &Value,
) -> Result<Response, ViewError>
    ensures { Makes bundle.now features.now state.old state.new to.now.command to.now.id
        (write.Place level context path.now value.now) result }
{
    let response = success(alloc, to, Body::Nothing)?;
    let done = put(alloc, state, level, context, path, value);
    if_done(done, response)
}

/// Keeps the state that an evaluation left, if there is a response to it.
fn keep(
    made: Result<Response, ViewError>,
    after: State,
    state: &mut State,
) -> Result<Response, ViewError>
    ensures made { result ≡ made }
    ensures state { state.new ≡ kept_by made after state.old }
{
    match made {
        Ok(response) => {
            drop(mem::replace(state, after));
            Ok(response)
        }
        Err(why) => {
            drop(after);
            Err(why)
        }
    }
}

/// Evaluates an expression, and tells its value.
#[tactic(auto, using(crate::proofs::MadeWrites::evaluation_tried))]
fn make_evaluation<E: Evaluator>(
    alloc: Global,
    bundle: &Bundle,
    features: &Features,
    state: &mut State,
    to: &Addressee,
    e: &Expression,
) -> Result<Response, ViewError>
    ensures { Makes bundle.now features.now state.old state.new to.now.command to.now.id (write.Evaluate e.now) result }
{
    let (value, after) = E::evaluation(alloc, bundle, e, state)?;
    let made = evaluation_response(alloc, features, to, &value);
    keep(made, after, state)
}

/// A response with the write that it tells.
fn with_write(made: Result<Response, ViewError>, write: Write) -> Result<Written, ViewError>
    ensures { result ≡ with_write write made }
{
    match made {
        Ok(response) => Ok(Written { response, write }),
        Err(why) => Err(why),
    }
}

/// property_set of a value at a path.
fn put_property(
    alloc: Global,
    bundle: &Bundle,
    features: &Features,
    state: &mut State,
    to: &Addressee,
    set: &PropertySet,
    path: Path,
    value: Value,
) -> Result<Written, ViewError>
    requires value { value_of_request set.now ≡ Some value }
    requires path { path_of_request state.old set.now.place ≡ Ok path }
    ensures { Answers bundle.now features.now state.old state.new to.now.command to.now.id
        (request.PropertySet set.now) result }
{
    let level = set.place.level;
    let context = set.place.context;
    let made = make_place(
        alloc, bundle, features, state, to, level, context, &path, &value,
    );
    let write = Write::Place {
        level,
        context,
        path,
        value,
    };
    with_write(made, write)
}

/// property_set of what is given at a path.
fn set_property(
    alloc: Global,
    bundle: &Bundle,
    features: &Features,
    state: &mut State,
    to: &Addressee,
    set: &PropertySet,
    path: Path,
    given: Given,
) -> Result<Written, ViewError>
    requires given { value_of_request set.now ≡ Some (value_of_given set.now.value given) }
    requires path { path_of_request state.old set.now.place ≡ Ok path }
    ensures { Answers bundle.now features.now state.old state.new to.now.command to.now.id
        (request.PropertySet set.now) result }
{
    match value_of(alloc, given, set.value.as_slice()) {
        Ok(value) => put_property(alloc, bundle, features, state, to, set, path, value),
        Err(_) => Err(ViewError::Memory),
    }
}

/// property_set of what is given.
fn place_property(
    alloc: Global,
    bundle: &Bundle,
    features: &Features,
    state: &mut State,
    to: &Addressee,
    set: &PropertySet,
    given: Given,
) -> Result<Written, ViewError>
    requires { value_of_request set.now ≡ Some (value_of_given set.now.value given) }
    ensures answer { Answers bundle.now features.now state.old state.new to.now.command to.now.id
        (request.PropertySet set.now) result }
    ensures at_once { IfSome
        (code_in (named_path state.old set.now.place.level set.now.place.context set.now.place.name))
        (λ code. result ≡ Err (ViewError.Code code)) }
{
    match requested_path(alloc, state, &set.place) {
        Ok(path) => set_property(alloc, bundle, features, state, to, set, path, given),
        Err(why) => Err(why),
    }
}

/// property_set.
fn write_property(
    alloc: Global,
    bundle: &Bundle,
    features: &Features,
    state: &mut State,
    to: &Addressee,
    set: &PropertySet,
) -> Result<Written, ViewError>
    ensures answer { Answers bundle.now features.now state.old state.new to.now.command to.now.id
        (request.PropertySet set.now) result }
    ensures at_once { IfSome (refusal_at_once state.old (request.PropertySet set.now))
        (λ code. result ≡ Err (ViewError.Code code)) }
{
    match given_in(set) {
        Some(given) => place_property(alloc, bundle, features, state, to, set, given),
        None => Err(ViewError::Code(ErrorCode::InvalidOptions)),
    }
}

/// eval of an expression.
fn evaluate<E: Evaluator>(
    alloc: Global,
    bundle: &Bundle,
    features: &Features,
    state: &mut State,
    to: &Addressee,
    text: &[u8],
    e: Expression,
) -> Result<Written, ViewError>
    requires { spec_tree text.now ≡ Some e }
    ensures { Answers bundle.now features.now state.old state.new to.now.command to.now.id
        (request.Eval text.now) result }
{
    let made = make_evaluation::<E>(alloc, bundle, features, state, to, &e);
    with_write(made, Write::Evaluate(e))
}

/// eval.
fn write_evaluation<E: Evaluator>(
    alloc: Global,
    bundle: &Bundle,
    features: &Features,
    state: &mut State,
    to: &Addressee,
    text: &[u8],
) -> Result<Written, ViewError>
    ensures { Answers bundle.now features.now state.old state.new to.now.command to.now.id
        (request.Eval text.now) result }
{
    match tree_of(alloc, text) {
        Ok(e) => evaluate::<E>(alloc, bundle, features, state, to, text, e),
        Err(why) => Err(why),
    }
}

/// The same without what is known of responses and codes.
#[tactic(auto, unfolding(crate::specs::Requests::requested_write, crate::specs::Responses::write_response))]
fn make_write<E: Evaluator>(
    alloc: Global,
    bundle: &Bundle,
    features: &Features,
    state: &mut State,
    to: &Addressee,
    request: &WriteRequest,
) -> Result<Written, ViewError>
    ensures answer { Answers bundle.now features.now state.old state.new to.now.command to.now.id request.now result }
    ensures at_once { IfSome (refusal_at_once state.old request.now) (λ code. result ≡ Err (ViewError.Code code)) }
{
    match request {
        WriteRequest::PropertySet(set) => write_property(alloc, bundle, features, state, to, set),
        WriteRequest::Eval { expression } => {
            write_evaluation::<E>(alloc, bundle, features, state, to, expression.as_slice())
        }
    }
}

/// Makes the write that a command asks for in the program's state at a moment, and answers it with its response. Where
/// it is refused, or memory runs out, the state is as before. `E` evaluates the expression of an eval.
///
/// The codes, in their order: of property_set 3 where there is no such value, 301, 302, and 300 where the name is none,
/// is `$this` or `$GLOBALS`, or the place cannot hold the value; of eval 206 where the text is no expression, where it
/// does not hold, or where the text of the response would pass 16,777,216 bytes.
pub fn write_response<E: Evaluator>(
    alloc: Global,
    bundle: &Bundle,
    features: &Features,
    state: &mut State,
    to: &Addressee,
    request: &WriteRequest,
) -> Result<Written, ViewError>
    ensures answer { Answers bundle.now features.now state.old state.new to.now.command to.now.id request.now result }
    // These refusals are reported whatever memory there is.
    ensures at_once { IfSome (refusal_at_once state.old request.now) (λ code. result ≡ Err (ViewError.Code code)) }
    ensures is_sent { IfOk result (λ made. IsSent made.response) }
{
    make_write::<E>(alloc, bundle, features, state, to, request)
}
