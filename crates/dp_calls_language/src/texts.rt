//! Calls of the crates of texts.

use dp_bodies::{Bodies, DapError, body_bytes, request_of};
use dp_bytes::{Bytes, Memory};
use dp_command::{Command, LineError, Request, SessionRequest, read_line};
use dp_features::{Features, Setting};
use dp_markup::{MarkupError, read, write};
use dp_packet::{Packet, text_of};
use dp_reply::{ReplyError, packet_of};
use std::alloc::Global;

/// Markup is read, and written in its canonical form.
pub(crate) fn dp_markup(alloc: Global) -> Result<String, MarkupError> {
    // call
    let element = read(alloc, b"<a b = '1'><c></c></a>")?;
    let text = write(alloc, &element)?;
    // end
    let answer = String::from_utf8_lossy(alloc, text.as_slice())?;
    Ok(answer)
}

/// A packet becomes a text.
pub(crate) fn dp_packet(alloc: Global) -> Result<String, Memory> {
    // call
    let output = Bytes::from_slice(alloc, b"7")?;
    let packet = Packet::Stream(output);
    let text = text_of(alloc, &packet)?;
    // end
    let element = text.as_slice().split(|byte| *byte == b'\n').nth(1);
    match element {
        Some(element) => String::from_utf8_lossy(alloc, element),
        None => Ok(String::new(alloc)),
    }
}

/// A line becomes a typed command.
pub(crate) fn dp_command(alloc: Global) -> Result<String, LineError> {
    // call
    let line = read_line(alloc, b"status -i 17")?;
    let command = Command::of(alloc, &line);
    // end
    let is_status = match command {
        Ok(command) => matches!(command.request, Request::Session(SessionRequest::Status)),
        Err(_) => false,
    };
    let answer = format!(in alloc; "{is_status}")?;
    Ok(answer)
}

/// A feature is given a value.
pub(crate) fn dp_features(alloc: Global) -> Result<String, Memory> {
    let mut features = Features::new();
    // call
    if let Some(setting) = Setting::of(b"max_depth", b"3") {
        features = features.with(setting);
    }
    let depth = features.max_depth();
    // end
    format!(in alloc; "{depth}")
}

/// A packet is read from the text of any engine.
pub(crate) fn dp_reply(alloc: Global) -> Result<String, ReplyError> {
    // call
    let packet = packet_of(alloc, b"<stream type='stdout'>Nw==</stream>")?;
    // end
    let answer = match packet {
        Packet::Stream(output) => String::from_utf8_lossy(alloc, output.as_slice())?,
        _ => String::new(alloc),
    };
    Ok(answer)
}

/// A body of a stream is read as a request.
pub(crate) fn dp_bodies(alloc: Global) -> Result<String, DapError> {
    // call
    let text = b"{\"command\":\"next\",\"seq\":3,\"type\":\"request\"}";
    let frame = body_bytes(alloc, text)?;
    let mut bodies = Bodies::new(alloc);
    bodies.feed(frame.as_slice())?;
    let request = match bodies.next() {
        Ok(Some(range)) => request_of(alloc, &bodies.bytes()[range.start..range.end])?,
        _ => return Err(DapError::NotRequest),
    };
    // end
    let seq = request.seq;
    let command = String::from_utf8_lossy(alloc, request.command.as_slice())?;
    let command = command.as_str();
    let answer = format!(in alloc; "{seq}, {command}")?;
    Ok(answer)
}
