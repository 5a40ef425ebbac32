//! News of breakpoints.

ghost use Rattle.std.specs.Prelude.{◌≡◌, ◌≤◌, length, map, option_and_then, IfOk, IfSome};
ghost use Rattle.dp_break.specs.Changes.{held_as};
ghost use Rattle.dp_break.specs.Tables.{IsSound};
ghost use Rattle.dp_break.specs.Notices as spec;
ghost use Rattle.dp_packet.specs.declared.packet.Packet.TheVariants as packet;
ghost use Rattle.dp_packet.specs.Text.{text};
ghost use Rattle.dp_tree.specs.FileNames.{AreFileNames};
ghost use Rattle.dp_wire.specs.Frames.{packet_limit};

use crate::breakpoint::Breakpoint;
use crate::breaks::Breaks;
use crate::shown::{breakpoint_line, read_numbers};
use dp_bytes::{Bytes, Memory};
use dp_command::{BreakpointRequest, number_of};
use dp_packet::Notify;
use dp_tree::Bundle;
use std::alloc::Global;

/// The line that a command asks for, if it is one.
#[tactic(auto, unfolding(crate::specs::Words::number_in))]
pub(crate) fn line_asked(request: &BreakpointRequest) -> Option<u32>
    ensures { result ≡ spec.line_asked request.now }
{
    match request {
        BreakpointRequest::Set(set) => match &set.line {
            Some(word) => number_of(word.as_slice()),
            None => None,
        },
        BreakpointRequest::Update(update) => update.line,
        BreakpointRequest::One { action: _, id: _ } => None,
        BreakpointRequest::List => None,
    }
}

/// The id of the breakpoint that a command changes, or else of one that it sets.
pub(crate) fn id_meant(request: &BreakpointRequest, breaks: &Breaks) -> u32
    ensures { result ≡ spec.id_meant breaks.now request.now }
{
    match request {
        BreakpointRequest::Update(update) => update.id,
        BreakpointRequest::Set(_) => breaks.next_id(),
        BreakpointRequest::One { action: _, id: _ } => breaks.next_id(),
        BreakpointRequest::List => breaks.next_id(),
    }
}

/// Whether the line is another than the one that was asked for.
fn has_moved(asked: Option<u32>, line: Option<u32>) -> bool
    ensures { result ≡ spec.has_moved asked line }
{
    match (asked, line) {
        (Some(asked), Some(line)) => asked != line,
        _ => false,
    }
}

/// News that a breakpoint has the line that it has.
fn resolved_notice(alloc: Global, bundle: &Bundle, b: &Breakpoint) -> Result<Notify, Memory>
    requires names { AreFileNames (map (λ f. f.name) bundle.now.files) }
    requires sound { IsSound b.now }
    ensures value { IfOk result (λ n. n ≡ spec.resolved_notice bundle.now b.now) }
    ensures short { IfOk result (λ n. length (text (packet.Notify n)) ≤ packet_limit) }
{
    read_numbers(b);
    let line = breakpoint_line(alloc, bundle, b)?;
    let name = Bytes::from_slice(alloc, b"breakpoint_resolved")?;
    Ok(Notify {
        name,
        breakpoint: Some(line),
    })
}

/// News of the breakpoint of this id, if its line is another than the one that was asked for.
pub(crate) fn notice(
    alloc: Global,
    bundle: &Bundle,
    asked: Option<u32>,
    id: u32,
    breaks: &Breaks,
) -> Result<Option<Notify>, Memory>
    requires names { AreFileNames (map (λ f. f.name) bundle.now.files) }
    ensures value { IfOk result (λ n. n
        ≡ option_and_then (spec.notice_of bundle.now asked) (held_as breaks.now.held id)) }
    ensures short { IfOk result (λ n. IfSome n (λ told. length (text (packet.Notify told)) ≤ packet_limit)) }
{
    let Some(breakpoint) = breaks.get(id) else {
        return Ok(None);
    };
    if !has_moved(asked, breakpoint.line) {
        return Ok(None);
    }
    Ok(Some(resolved_notice(alloc, bundle, breakpoint)?))
}
