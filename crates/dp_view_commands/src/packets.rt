//! Responses, and what fits into them.

ghost use Rattle.std.specs.Prelude.{◌≡◌, ◌+◌, ◌≤◌, ◌∷◌, [], if◌then◌else◌, codes, decimal, length, Err, Ok, IfOk};
ghost use Rattle.std.specs.Prelude.{◌*◌};
ghost use Rattle.dp_markup.specs.Texts.{attribute_text};
ghost use Rattle.dp_packet.specs.Sizes.{short_size_limit};
ghost use Rattle.dp_view.specs.Answers.{AnswersSurely};
ghost use Rattle.dp_view_commands.specs.Views as spec;
ghost use Rattle.dp_view_commands.specs.inner.Responses.{around};
ghost use Rattle.dp_wire.specs.Frames.{packet_limit};

use dp_bytes::{Bytes, Items, Memory};
use dp_command::Addressee;
use dp_packet::{Body, ErrorCode, Packet, Response, put_attribute, short_size, text_size};
use dp_view::ViewError;
use dp_wire::PACKET_LIMIT;
use itoa::Buffer;
use std::alloc::Global;

/// The most bytes of a packet's text.
const LIMIT: u32 = PACKET_LIMIT as u32;

/// The size of a response without its command's name, its id and what stands in it.
const BARE_SIZE: u64 = 98;

/// No attributes.
pub(crate) fn none(alloc: Global) -> Items<(Bytes, Bytes)>
    ensures { result ≡ [] }
{
    Items::of(Vec::new(alloc))
}

/// A number as an attribute.
pub(crate) fn number(
    alloc: Global,
    name: &[u8],
    number: u64,
) -> Result<Items<(Bytes, Bytes)>, Memory>
    ensures { IfOk result (λ made. made ≡ (name.now, decimal number) ∷ []) }
{
    let mut attributes = Vec::new(alloc);
    let mut buffer = Buffer::new();
    put_attribute(
        alloc,
        &mut attributes,
        name,
        buffer.format(number).as_bytes(),
    )?;
    Ok(Items::of(attributes))
}

/// The attributes of a text that is sent in base64.
pub(crate) fn encoded(alloc: Global) -> Result<Items<(Bytes, Bytes)>, Memory>
    ensures { IfOk result (λ made. made ≡ spec.source_attributes) }
{
    let mut attributes = Vec::new(alloc);
    put_attribute(alloc, &mut attributes, b"success", b"1")?;
    put_attribute(alloc, &mut attributes, b"encoding", b"base64")?;
    Ok(Items::of(attributes))
}

/// The response to a command.
pub(crate) fn respond(
    alloc: Global,
    to: &Addressee,
    attributes: Items<(Bytes, Bytes)>,
    body: Body,
) -> Result<Response, Memory>
    ensures { IfOk result (λ r. r ≡ spec.response_with to.now.command to.now.id (attributes, body)) }
{
    let command = to.command.try_clone()?;
    let id = to.id.try_clone()?;
    Ok(Response {
        command,
        id,
        attributes,
        body,
    })
}

/// A response, or 300 where it is not short.
fn short_or_refused(response: Response, is_short: bool) -> Result<Response, ViewError>
    ensures { AnswersSurely (λ r. r) result (if is_short then Ok response else Err ErrorCode.CannotGetProperty) }
{
    if is_short {
        Ok(response)
    } else {
        Err(ViewError::Code(ErrorCode::CannotGetProperty))
    }
}

/// The response, or 300 where its text passes the limit.
pub(crate) fn limited(response: Response) -> Result<Response, ViewError>
    ensures { AnswersSurely (λ r. r) result (spec.within_limit response) }
{
    let packet = Packet::Response(response);
    let is_short = text_size(&packet) <= u64::from(LIMIT);
    match packet {
        Packet::Response(response) => short_or_refused(response, is_short),
        Packet::Init(_init) => Err(ViewError::Code(ErrorCode::CannotGetProperty)),
        Packet::Stream(_bytes) => Err(ViewError::Code(ErrorCode::CannotGetProperty)),
        Packet::Notify(_notify) => Err(ViewError::Code(ErrorCode::CannotGetProperty)),
        Packet::Proxy(_reply) => Err(ViewError::Code(ErrorCode::CannotGetProperty)),
    }
}

/// The size of a response without attributes of its own and without a body.
#[tactic(auto, using(crate::proofs::Sizes::bare_is))]
fn bare_size(to: &Addressee) -> u64
    ensures size { result ≡ around to.now.command to.now.id [] }
    ensures small { result ≤ 98 + 2 * short_size_limit }
{
    BARE_SIZE
        + short_size(b"command", to.command.as_slice())
        + short_size(b"transaction_id", to.id.as_slice())
}

/// The size of the attribute that names a context.
fn context_size(id: u32) -> u64
    ensures size { result ≡ length (attribute_text (codes "context", decimal id)) }
    ensures small { result ≤ short_size_limit }
{
    let mut buffer = Buffer::new();
    short_size(b"context", buffer.format(id).as_bytes())
}

/// How many bytes properties may have in a response without attributes of its own.
pub(crate) fn property_room(to: &Addressee) -> u32
    ensures { result + around to.now.command to.now.id [] ≡ packet_limit }
{
    LIMIT - bare_size(to) as u32
}

/// How many bytes properties may have in a response that names a context.
#[tactic(auto, using(crate::proofs::Sizes::one_more))]
pub(crate) fn context_room(to: &Addressee, id: u32) -> u32
    ensures { result + around to.now.command to.now.id (spec.context_attributes id) ≡ packet_limit }
{
    LIMIT - (bare_size(to) + context_size(id)) as u32
}
