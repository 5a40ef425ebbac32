//! What commands that write are answered.

ghost use Rattle.std.specs.Prelude.{◌≡◌, ◌+◌, ◌∷◌, [], codes, IfOk};
ghost use Rattle.dp_packet.specs.declared.packet.Body.TheVariants as body;
ghost use Rattle.dp_wire.specs.Frames.{packet_limit};
ghost use Rattle.dp_view.specs.Answers.{Gives};
ghost use Rattle.dp_write_commands.specs.Responses as spec;
ghost use Rattle.dp_meaning.specs.inner.WriteAnswers.{answer_by};
ghost use Rattle.dp_write_commands.specs.inner.Writes.{Finds, around};

use dp_bytes::{Bytes, Items, Memory};
use dp_command::Addressee;
use dp_features::Features;
use dp_packet::{Body, ErrorCode, Property, Response, put_attribute, short_size};
use dp_value::Value;
use dp_view::{Paging, ViewError};
use dp_view_limits::limited_shown;
use dp_wire::PACKET_LIMIT;
use std::alloc::Global;

/// The most bytes of a packet's text.
const LIMIT: u32 = PACKET_LIMIT as u32;

/// The size of a response that says success, without its command's name, its id and what stands in it.
const SUCCESS_SIZE: u64 = 110;

/// That a command succeeds, as an attribute.
fn attributes(alloc: Global) -> Result<Items<(Bytes, Bytes)>, Memory>
    ensures { IfOk result (λ made. made ≡ (codes "success", codes "1") ∷ []) }
{
    let mut attributes = Vec::new(alloc);
    put_attribute(alloc, &mut attributes, b"success", b"1")?;
    Ok(Items::of(attributes))
}

/// The response to a command that succeeds.
pub(crate) fn success(alloc: Global, to: &Addressee, body: Body) -> Result<Response, Memory>
    ensures { IfOk result (λ r. r ≡ spec.success to.now.command to.now.id body) }
{
    let attributes = attributes(alloc)?;
    let command = to.command.try_clone()?;
    let id = to.id.try_clone()?;
    Ok(Response {
        command,
        id,
        attributes,
        body,
    })
}

/// How much is shown of a value.
fn paging(features: &Features) -> Paging
    ensures { result ≡ spec.paging features.now }
{
    Paging {
        children: u64::from(features.max_children()),
        bytes: u64::from(features.max_data()),
        depth: features.max_depth(),
        page: 0,
    }
}

/// How many bytes the value may have in the response to an evaluation.
#[tactic(auto, using(crate::proofs::Sizes::around_is))]
fn room(to: &Addressee) -> u32
    ensures { result + around to.now.command to.now.id ≡ packet_limit }
{
    let names = short_size(b"command", to.command.as_slice())
        + short_size(b"transaction_id", to.id.as_slice());
    LIMIT - (SUCCESS_SIZE + names) as u32
}

/// One property.
fn alone(alloc: Global, made: Property) -> Result<Body, Memory>
    ensures { IfOk result (λ all. all ≡ body.Properties (made ∷ [])) }
{
    let mut all = Vec::new(alloc);
    all.push(made)?;
    Ok(Body::Properties(Items::of(all)))
}

/// The response that shows one property, which it has room for.
fn showing(alloc: Global, to: &Addressee, made: Property) -> Result<Response, ViewError>
    ensures { Gives (spec.success to.now.command to.now.id (body.Properties (made ∷ []))) result }
{
    let body = alone(alloc, made)?;
    Ok(success(alloc, to, body)?)
}

/// The response that shows a value. That it is too long is found before it is made.
fn value_response(
    alloc: Global,
    features: &Features,
    to: &Addressee,
    value: &Value,
) -> Result<Response, ViewError>
    ensures { Finds result
        (spec.within_limit (spec.value_response features.now to.now.command to.now.id value.now)) }
{
    match limited_shown(alloc, value, &paging(features), room(to)) {
        Ok(made) => showing(alloc, to, made),
        Err(ViewError::Code(_)) => Err(ViewError::Code(ErrorCode::ErrorEvaluatingCode)),
        Err(ViewError::Memory) => Err(ViewError::Memory),
    }
}

/// What is answered to an evaluation, by its value where it holds.
pub(crate) fn evaluation_response(
    alloc: Global,
    features: &Features,
    to: &Addressee,
    value: &Option<Value>,
) -> Result<Response, ViewError>
    ensures { Finds result (spec.response_to features.now to.now.command to.now.id (answer_by value.now)) }
{
    match value {
        Some(value) => value_response(alloc, features, to, value),
        None => Err(ViewError::Code(ErrorCode::ErrorEvaluatingCode)),
    }
}
