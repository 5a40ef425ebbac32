//! The packets that a session sends.
ghost use Rattle.std.specs.Prelude.{◌≡◌, ◌≤◌, ◌∷◌, [], codes, length, IfOk, IfSome};
ghost use Rattle.dp_features.specs.Features.{value_limit};
ghost use Rattle.dp_wire.specs.Frames.{IsPacketText, command_limit};
ghost use Rattle.dp_packet.specs.Parts.{flag as flag_text};
ghost use Rattle.dp_engine.specs.Responses as spec;
ghost use Rattle.dp_engine.specs.inner.Sizes.{Fits};

use dp_bytes::{Bytes, Items, Memory};
use dp_command::Addressee;
use dp_packet::{Body, ErrorCode, Packet, Response, text_of};
use std::alloc::Global;

/// An attribute of this name and value, both copied.
fn pair(alloc: Global, name: &[u8], value: &[u8]) -> Result<(Bytes, Bytes), Memory>
    ensures { IfOk result (λ pair. pair ≡ (name.now, value.now)) }
{
    let name = Bytes::from_slice(alloc, name)?;
    let value = Bytes::from_slice(alloc, value)?;
    Ok((name, value))
}

/// These two attributes, in this order; names and values are copied.
fn pairs(
    alloc: Global,
    first: (&[u8], &[u8]),
    second: (&[u8], &[u8]),
) -> Result<Items<(Bytes, Bytes)>, Memory>
    ensures { IfOk result (λ pairs. pairs
        ≡ (first.entry.0.now, first.entry.1.now) ∷ (second.entry.0.now, second.entry.1.now) ∷ []) }
{
    let mut pairs = Vec::new(alloc);
    pairs.push(pair(alloc, first.0, first.1)?)?;
    pairs.push(pair(alloc, second.0, second.1)?)?;
    Ok(Items::of(pairs))
}

/// The response to a command, under its name and id, with these attributes and this body.
fn response(
    alloc: Global,
    to: &Addressee,
    attributes: Items<(Bytes, Bytes)>,
    body: Body,
) -> Result<Response, Memory>
    ensures { IfOk result (λ r. r ≡ spec.response to.now.command to.now.id attributes body) }
{
    let command = to.command.try_clone()?;
    let id = to.id.try_clone()?;
    Ok(Response {
        command,
        id,
        attributes,
        body,
    })
}

/// The text of the packet of a response.
pub(crate) fn text(alloc: Global, response: Response) -> Result<Bytes, Memory>
    requires { Fits response }
    ensures value { IfOk result (λ text. text ≡ spec.response_text response) }
    ensures is_text { IfOk result IsPacketText }
{
    text_of(alloc, &Packet::Response(response))
}

/// A response that tells a status and its reason.
pub(crate) fn status(
    alloc: Global,
    to: &Addressee,
    status: &[u8],
    reason: &[u8],
) -> Result<Response, Memory>
    requires status { length status.now ≤ 16 }
    requires reason { length reason.now ≤ 16 }
    ensures value { IfOk result (λ r. r ≡ spec.status_response to.now.command to.now.id status.now reason.now) }
    ensures fits { IfOk result Fits }
{
    let attributes = pairs(alloc, (b"status", status), (b"reason", reason))?;
    response(alloc, to, attributes, Body::Nothing)
}

/// The body of a feature's response: its value as text, or nothing if it has none.
fn value_body(value: Option<Bytes>) -> Body
    ensures { result ≡ spec.value_body value }
{
    match value {
        None => Body::Nothing,
        Some(value) => Body::Plain(value),
    }
}

/// A feature, whether it is supported, and its value where it has one.
pub(crate) fn feature(
    alloc: Global,
    to: &Addressee,
    feature: &[u8],
    supported: &[u8],
    value: Option<Bytes>,
) -> Result<Response, Memory>
    requires feature { length feature.now ≤ command_limit }
    requires supported { length supported.now ≤ 16 }
    requires value { IfSome value (λ text. length text ≤ value_limit) }
    ensures value { IfOk result (λ r. r
        ≡ spec.feature_response to.now.command to.now.id feature.now supported.now value) }
    ensures fits { IfOk result Fits }
{
    let attributes = pairs(alloc, (b"feature_name", feature), (b"supported", supported))?;
    response(alloc, to, attributes, value_body(value))
}

/// A feature that was set.
pub(crate) fn feature_set(alloc: Global, to: &Addressee, feature: &[u8]) -> Result<Response, Memory>
    requires feature { length feature.now ≤ command_limit }
    ensures value { IfOk result (λ r. r ≡ spec.set_response to.now.command to.now.id feature.now) }
    ensures fits { IfOk result Fits }
{
    let attributes = pairs(alloc, (b"feature", feature), (b"success", b"1"))?;
    response(alloc, to, attributes, Body::Nothing)
}

/// Whether a command succeeds, as an attribute.
fn success_attributes(alloc: Global, success: bool) -> Result<Items<(Bytes, Bytes)>, Memory>
    ensures { IfOk result (λ pairs. pairs ≡ (codes "success", flag_text success) ∷ []) }
{
    let mut attributes = Vec::new(alloc);
    attributes.push(pair(alloc, b"success", flag(success))?)?;
    Ok(Items::of(attributes))
}

/// A command that succeeds or does not.
pub(crate) fn success(alloc: Global, to: &Addressee, success: bool) -> Result<Response, Memory>
    ensures value { IfOk result (λ r. r ≡ spec.success_response to.now.command to.now.id success) }
    ensures fits { IfOk result Fits }
{
    let attributes = success_attributes(alloc, success)?;
    response(alloc, to, attributes, Body::Nothing)
}

/// `1` if it holds, else `0`.
pub(crate) fn flag(holds: bool) -> &'static [u8]
    ensures text { result.now ≡ flag_text holds }
    ensures short { length result.now ≤ 16 }
{
    if holds { b"1" } else { b"0" }
}

/// An error with this code.
pub(crate) fn fault(alloc: Global, to: &Addressee, code: ErrorCode) -> Result<Response, Memory>
    ensures value { IfOk result (λ r. r ≡ spec.fault_response to.now.command to.now.id code) }
    ensures fits { IfOk result Fits }
{
    response(
        alloc,
        to,
        Items::of(Vec::new(alloc)),
        Body::Fault(code.number()),
    )
}
