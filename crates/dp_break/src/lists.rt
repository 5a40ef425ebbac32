//! Breakpoints that are listed.

ghost use Rattle.std.specs.Prelude.{◌≡◌, ◌+◌, ◌≤◌, ◌∷◌, [], length, map, IfOk};
ghost use Rattle.dp_break.specs.Tables.{IsSound};
ghost use Rattle.dp_break.specs.Commands as spec;
ghost use Rattle.dp_break.specs.Shown as shown;
ghost use Rattle.dp_break.specs.inner.LineSizes.{fitting};
ghost use Rattle.dp_packet.specs.declared.packet.Packet.TheVariants as packet;
ghost use Rattle.dp_packet.specs.Text.{text};
ghost use Rattle.dp_tree.specs.FileNames.{AreFileNames};
ghost use Rattle.dp_wire.specs.Frames.{packet_limit};

use crate::breakpoint::Breakpoint;
use crate::responses::lines_response;
use crate::shown::{breakpoint_line, read_numbers};
use dp_bytes::Memory;
use dp_command::Addressee;
use dp_packet::{BreakLine, Response, attribute_size, break_size};
use dp_tree::Bundle;
use dp_wire::PACKET_LIMIT;
use std::alloc::Global;

/// The most bytes of a packet's text.
const LIMIT: u64 = PACKET_LIMIT as u64;

/// The size of a response without its command's name, its id and what stands in it.
const BARE_SIZE: u64 = 98;

/// The room for breakpoints in the response to a command.
fn room_for_lines(to: &Addressee) -> u64
    ensures { result + length (text (packet.Response (spec.lines_response to.now.command to.now.id []))) ≡
        packet_limit }
{
    let command = attribute_size(b"command", to.command.as_slice());
    let id = attribute_size(b"transaction_id", to.id.as_slice());
    LIMIT - (BARE_SIZE + command + id)
}

/// The first of the breakpoints as a packet shows them, up to the one for which there is no room.
fn fitting_lines(
    alloc: Global,
    bundle: &Bundle,
    held: &[Breakpoint],
    room: u64,
) -> Result<Vec<BreakLine>, Memory>
    requires { room ≤ packet_limit }
    ensures { IfOk result (λ lines. lines.items ≡ fitting room (map (shown.breakpoint_line bundle.now) held.now)) }
{
    let mut lines = Vec::new(alloc);
    let mut left = room;
    for breakpoint in held {
        let line = breakpoint_line(alloc, bundle, breakpoint)?;
        let size = break_size(&line);
        if size > left {
            return Ok(lines);
        }
        left -= size;
        lines.push(line)?;
    }
    Ok(lines)
}

/// The breakpoints that a response to a command lists. Each is measured before it is put in, so that none is made
/// behind the first that would not fit.
#[tactic(auto, using(crate::proofs::Lengths::listed_are))]
fn listed_lines(
    alloc: Global,
    bundle: &Bundle,
    to: &Addressee,
    held: &[Breakpoint],
) -> Result<Vec<BreakLine>, Memory>
    ensures { IfOk result (λ lines. lines.items
        ≡ spec.listed to.now.command to.now.id (map (shown.breakpoint_line bundle.now) held.now)) }
{
    fitting_lines(alloc, bundle, held, room_for_lines(to))
}

/// A response that lists breakpoints, up to the first with which it would not fit in a packet.
pub(crate) fn list_response(
    alloc: Global,
    bundle: &Bundle,
    to: &Addressee,
    held: &[Breakpoint],
) -> Result<Response, Memory>
    ensures value { IfOk result (λ r. r ≡ spec.lines_response to.now.command to.now.id
        (spec.listed to.now.command to.now.id (map (shown.breakpoint_line bundle.now) held.now))) }
    ensures short { IfOk result (λ r. length (text (packet.Response r)) ≤ packet_limit) }
{
    let lines = listed_lines(alloc, bundle, to, held)?;
    lines_response(alloc, to, lines)
}

/// One breakpoint as a packet shows it.
fn one_line(
    alloc: Global,
    bundle: &Bundle,
    breakpoint: &Breakpoint,
) -> Result<Vec<BreakLine>, Memory>
    ensures { IfOk result (λ lines. lines.items ≡ shown.breakpoint_line bundle.now breakpoint.now ∷ []) }
{
    let mut lines = Vec::new(alloc);
    lines.push(breakpoint_line(alloc, bundle, breakpoint)?)?;
    Ok(lines)
}

/// A response that shows one breakpoint.
pub(crate) fn one_response(
    alloc: Global,
    bundle: &Bundle,
    to: &Addressee,
    breakpoint: &Breakpoint,
) -> Result<Response, Memory>
    requires names { AreFileNames (map (λ f. f.name) bundle.now.files) }
    requires sound { IsSound breakpoint.now }
    ensures value { IfOk result (λ r. r
        ≡ spec.lines_response to.now.command to.now.id (shown.breakpoint_line bundle.now breakpoint.now ∷ [])) }
    ensures short { IfOk result (λ r. length (text (packet.Response r)) ≤ packet_limit) }
{
    read_numbers(breakpoint);
    let lines = one_line(alloc, bundle, breakpoint)?;
    lines_response(alloc, to, lines)
}
