//! The packets that answer commands in a session without an engine.

use crate::breakpoints::{remove, set, shown, shown_all, update};
use crate::session::Session;
use crate::views::{context_body, evaluated_body, names_body, page_body, stack_body, value_body};
use dp_bytes::{Bytes, Items};
use dp_command::{
    BreakpointAction, BreakpointRequest, Command, Line, LookRequest, Request, WriteRequest,
    read_line,
};
use dp_packet::{Body, ErrorCode, Packet, Response, has_message, text_of};
use dp_rows::Memory;
use std::alloc::Global;

/// What a command gives: attributes and a body, or the code of an error; nothing where it is no command here.
pub(crate) enum Answer {
    Given(Items<(Bytes, Bytes)>, Body),
    Code(ErrorCode),
    Nothing,
}

/// A body without attributes.
pub(crate) fn bare(alloc: Global, body: Body) -> Answer {
    Answer::Given(Items::of(Vec::new(alloc)), body)
}

/// An attribute.
pub(crate) fn attribute(
    alloc: Global,
    name: &[u8],
    value: &[u8],
) -> Result<(Bytes, Bytes), Memory> {
    Ok((
        Bytes::from_slice(alloc, name)?,
        Bytes::from_slice(alloc, value)?,
    ))
}

/// What a request gives.
fn answer_to(session: &mut Session, request: Request) -> Result<Answer, Memory> {
    match request {
        Request::Session(_) => Ok(Answer::Nothing),
        Request::Breakpoints(BreakpointRequest::Set(asked)) => set(session, asked),
        Request::Breakpoints(other) => answer_of(session, &other),
        Request::Look(request) => view_of(session, &request),
        Request::Write(WriteRequest::PropertySet(_)) => Ok(Answer::Nothing),
        Request::Write(WriteRequest::Eval { expression }) => {
            evaluated_body(session, expression.as_slice())
        }
    }
}

/// What a request about breakpoints that are set gives.
fn answer_of(session: &mut Session, request: &BreakpointRequest) -> Result<Answer, Memory> {
    match request {
        BreakpointRequest::Set(_) => Ok(Answer::Nothing),
        BreakpointRequest::One {
            action: BreakpointAction::Get,
            id,
        } => shown(session, *id),
        BreakpointRequest::One {
            action: BreakpointAction::Remove,
            id,
        } => Ok(remove(session, *id)),
        BreakpointRequest::Update(asked) => Ok(update(session, asked)),
        BreakpointRequest::List => shown_all(session),
    }
}

/// What a request about what is shown gives.
fn view_of(session: &Session, request: &LookRequest) -> Result<Answer, Memory> {
    match request {
        LookRequest::StackGet { level } => stack_body(session, *level),
        LookRequest::ContextGet { level, context } => context_body(session, *level, *context),
        LookRequest::ContextNames => names_body(session),
        LookRequest::PropertyGet {
            place,
            page,
            max_data,
        } => page_body(session, place, *page, *max_data),
        LookRequest::PropertyValue { place, max_data } => value_body(session, place, *max_data),
        LookRequest::StackDepth | LookRequest::Source(_) => Ok(Answer::Nothing),
    }
}

/// A response with attributes and a body.
fn response(
    command: Bytes,
    id: Bytes,
    attributes: Items<(Bytes, Bytes)>,
    body: Body,
) -> Option<Packet> {
    Some(Packet::Response(Response {
        command,
        id,
        attributes,
        body,
    }))
}

/// The response to the command of this name with this id, if it is answered.
fn answered(alloc: Global, name: Bytes, id: Bytes, answer: Answer) -> Option<Packet> {
    match answer {
        Answer::Given(attributes, body) => response(name, id, attributes, body),
        Answer::Code(code) => response(
            name,
            id,
            Items::of(Vec::new(alloc)),
            Body::Fault(code.number()),
        ),
        Answer::Nothing => None,
    }
}

/// The packet that answers the command of this name.
fn packet_of(
    session: &mut Session,
    name: Bytes,
    command: Command,
) -> Result<Option<Packet>, Memory> {
    let Command { id, request } = command;
    match answer_to(session, request) {
        Ok(answer) => Ok(answered(session.alloc, name, id, answer)),
        Err(error) => Err(error),
    }
}

/// The packet that answers a line.
fn packet_for_line(session: &mut Session, line: Line) -> Result<Option<Packet>, Memory> {
    match Command::of(session.alloc, &line) {
        Ok(command) => packet_of(session, line.name, command),
        Err(_) => Ok(None),
    }
}

/// The packet that answers the bytes of a command line.
pub(crate) fn packet_for(session: &mut Session, bytes: &[u8]) -> Result<Option<Packet>, Memory> {
    match read_line(session.alloc, bytes) {
        Ok(line) => packet_for_line(session, line),
        Err(_) => Ok(None),
    }
}

/// Puts a packet as it stands on a wire.
pub(crate) fn put_packet(alloc: Global, text: &mut String, packet: &Packet) -> Result<(), Memory> {
    if !has_message(packet) {
        text.push_str("a code without a message\n")?;
        return Ok(());
    }
    let bytes = text_of(alloc, packet)?;
    let length = bytes.len();
    let element = String::from_utf8_lossy(alloc, bytes.as_slice())?;
    write!(text, "{length}\0{element}\0")?;
    Ok(())
}
