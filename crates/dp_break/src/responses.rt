//! The responses to breakpoint commands.

ghost use Rattle.std.specs.Prelude.{◌≡◌, ◌≤◌, ◌∷◌, codes, decimal, length, IfOk};
ghost use Rattle.dp_break.specs.Commands as spec;
ghost use Rattle.dp_packet.specs.Breakpoints as breakpoints;
ghost use Rattle.dp_packet.specs.declared.packet.Packet.TheVariants as packet;
ghost use Rattle.dp_packet.specs.Text.{text};
ghost use Rattle.dp_wire.specs.Frames.{packet_limit};

use dp_bytes::{Bytes, Items, Memory};
use dp_command::Addressee;
use dp_packet::{Body, BreakLine, Response};
use itoa::Buffer;
use std::alloc::Global;

/// How it is said whether a breakpoint is enabled.
fn state_name(enabled: bool) -> &'static [u8]
    ensures { result.now ≡ breakpoints.state_name enabled }
{
    if enabled { b"enabled" } else { b"disabled" }
}

/// An attribute of this name and value, both copied.
fn pair(alloc: Global, name: &[u8], value: &[u8]) -> Result<(Bytes, Bytes), Memory>
    ensures { IfOk result (λ pair. pair ≡ (name.now, value.now)) }
{
    let name = Bytes::from_slice(alloc, name)?;
    let value = Bytes::from_slice(alloc, value)?;
    Ok((name, value))
}

/// An attribute of this name, whose value is the number in decimal.
fn number_pair(alloc: Global, name: &[u8], number: u32) -> Result<(Bytes, Bytes), Memory>
    ensures { IfOk result (λ pair. pair ≡ (name.now, decimal number)) }
{
    let mut buffer = Buffer::new();
    pair(alloc, name, buffer.format(number).as_bytes())
}

/// The response to a command, under its name and id, with these attributes and this body.
fn response(
    alloc: Global,
    to: &Addressee,
    attributes: Vec<(Bytes, Bytes)>,
    body: Body,
) -> Result<Response, Memory>
    ensures { IfOk result (λ r. r ≡ spec.response to.now.command to.now.id attributes.items body) }
{
    let command = to.command.try_clone()?;
    let id = to.id.try_clone()?;
    Ok(Response {
        command,
        id,
        attributes: Items::of(attributes),
        body,
    })
}

/// A response that says nothing but that the command is done.
pub(crate) fn bare_response(alloc: Global, to: &Addressee) -> Result<Response, Memory>
    ensures value { IfOk result (λ r. r ≡ spec.bare_response to.now.command to.now.id) }
    ensures short { IfOk result (λ r. length (text (packet.Response r)) ≤ packet_limit) }
{
    response(alloc, to, Vec::new(alloc), Body::Nothing)
}

/// The state and the id of a new breakpoint, and whether it is resolved.
fn set_attributes(
    alloc: Global,
    enabled: bool,
    id: u32,
    resolved: bool,
) -> Result<Vec<(Bytes, Bytes)>, Memory>
    ensures { IfOk result (λ attributes. attributes.items ≡ (codes "state", breakpoints.state_name enabled)
        ∷ (codes "id", decimal id) ∷ breakpoints.resolved_attribute resolved) }
{
    let mut attributes = Vec::new(alloc);
    attributes.push(pair(alloc, b"state", state_name(enabled))?)?;
    attributes.push(number_pair(alloc, b"id", id)?)?;
    if resolved {
        attributes.push(pair(alloc, b"resolved", b"resolved")?)?;
    }
    Ok(attributes)
}

/// A response with the state and the id of a new breakpoint, and whether it is resolved.
pub(crate) fn set_response(
    alloc: Global,
    to: &Addressee,
    enabled: bool,
    id: u32,
    resolved: bool,
) -> Result<Response, Memory>
    ensures value { IfOk result (λ r. r ≡ spec.set_response to.now.command to.now.id enabled id resolved) }
    ensures short { IfOk result (λ r. length (text (packet.Response r)) ≤ packet_limit) }
{
    let attributes = set_attributes(alloc, enabled, id, resolved)?;
    response(alloc, to, attributes, Body::Nothing)
}

/// A response with breakpoints.
pub(crate) fn lines_response(
    alloc: Global,
    to: &Addressee,
    lines: Vec<BreakLine>,
) -> Result<Response, Memory>
    ensures { IfOk result (λ r. r ≡ spec.lines_response to.now.command to.now.id lines.items) }
{
    response(
        alloc,
        to,
        Vec::new(alloc),
        Body::Breakpoints(Items::of(lines)),
    )
}
