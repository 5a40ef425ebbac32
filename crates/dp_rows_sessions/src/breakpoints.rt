//! The breakpoints of a session without an engine.

use crate::answers::{Answer, attribute, bare};
use crate::session::Session;
use dp_break::{BreakError, breakpoint_change, breakpoint_line, breakpoint_request};
use dp_bytes::{Bytes, Items};
use dp_command::{BreakpointSet, BreakpointUpdate};
use dp_packet::{Body, ErrorCode};
use dp_rows::Memory;
use std::alloc::Global;

/// The file where the program is.
fn here(session: &Session) -> u32 {
    match &session.state {
        Some(state) => state.file(),
        None => 0,
    }
}

/// The attributes of a breakpoint that was set.
fn response_attributes(
    alloc: Global,
    enabled: bool,
    id: u32,
) -> Result<Items<(Bytes, Bytes)>, Memory> {
    let state = if enabled {
        b"enabled".as_slice()
    } else {
        b"disabled"
    };
    let digits = format!(in alloc; "{id}")?;
    let both = vec![in alloc;
        attribute(alloc, b"state", state)?,
        attribute(alloc, b"id", digits.as_bytes())?,
    ]?;
    Ok(Items::of(both))
}

/// The answer to a refusal of breakpoints.
fn refused(error: BreakError) -> Result<Answer, Memory> {
    match error {
        BreakError::Code(code) => Ok(Answer::Code(code)),
        BreakError::Memory => Err(Memory),
    }
}

/// Sets a breakpoint.
pub(crate) fn set(session: &mut Session, asked: BreakpointSet) -> Result<Answer, Memory> {
    let alloc = session.alloc;
    let file = here(session);
    if file as usize >= session.bundle.files.len() {
        return Ok(Answer::Nothing);
    }
    let request = match breakpoint_request(alloc, &session.bundle, file, asked) {
        Ok(request) => request,
        Err(error) => return refused(error),
    };
    let enabled = request.enabled;
    match session.breaks.add(&session.bundle, request, false) {
        Ok(id) => Ok(Answer::Given(response_attributes(alloc, enabled, id)?, Body::Nothing)),
        Err(error) => refused(error),
    }
}

/// One breakpoint.
pub(crate) fn shown(session: &Session, id: u32) -> Result<Answer, Memory> {
    let alloc = session.alloc;
    match session.breaks.get(id) {
        Some(held) => {
            let line = breakpoint_line(alloc, &session.bundle, held)?;
            let lines = Items::of(vec![in alloc; line]?);
            Ok(bare(alloc, Body::Breakpoints(lines)))
        }
        None => Ok(Answer::Code(ErrorCode::NoSuchBreakpoint)),
    }
}

/// All breakpoints.
pub(crate) fn shown_all(session: &Session) -> Result<Answer, Memory> {
    let alloc = session.alloc;
    let mut lines = Vec::new(alloc);
    for held in session.breaks.list() {
        lines.push(breakpoint_line(alloc, &session.bundle, held)?)?;
    }
    Ok(bare(alloc, Body::Breakpoints(Items::of(lines))))
}

/// Takes out a breakpoint.
pub(crate) fn remove(session: &mut Session, id: u32) -> Answer {
    if session.breaks.remove(id) {
        bare(session.alloc, Body::Nothing)
    } else {
        Answer::Code(ErrorCode::NoSuchBreakpoint)
    }
}

/// Changes a breakpoint.
pub(crate) fn update(session: &mut Session, asked: &BreakpointUpdate) -> Answer {
    let kind = match session.breaks.get(asked.id) {
        Some(held) => held.kind,
        None => return Answer::Code(ErrorCode::NoSuchBreakpoint),
    };
    let change = match breakpoint_change(kind, asked) {
        Ok(change) => change,
        Err(BreakError::Code(code)) => return Answer::Code(code),
        Err(BreakError::Memory) => return Answer::Nothing,
    };
    match session
        .breaks
        .update(&session.bundle, asked.id, change, false)
    {
        Ok(()) => bare(session.alloc, Body::Nothing),
        Err(BreakError::Code(code)) => Answer::Code(code),
        Err(BreakError::Memory) => Answer::Nothing,
    }
}
