//! Calls of command lines: a line is written again, and a command told by its request.

use crate::requests::put_request;
use dp_command::{
    Command, CommandError, CommandName, Line, LineError, id_of, read_line, write_line,
};
use dp_packet::ErrorCode;
use dp_rows::{Memory, put_bytes};
use std::alloc::Global;

/// The canonical form of a line.
fn canonical(alloc: Global, line: &Line) -> Result<String, Memory> {
    let text = write_line(alloc, line)?;
    String::from_utf8_lossy(alloc, text.as_slice())
}

/// The canonical form of the line that is read.
pub(crate) fn told_line(alloc: Global, input: &[u8]) -> Result<String, Memory> {
    match read_line(alloc, input) {
        Ok(line) => canonical(alloc, &line),
        Err(LineError::Parse) => String::from_str(alloc, "Parse"),
        Err(LineError::Memory) => Err(Memory),
    }
}

/// What a command asks for, and its id.
fn requested(alloc: Global, command: &Command) -> Result<String, Memory> {
    let mut text = String::new(alloc);
    put_request(&mut text, &command.request)?;
    text.push_str(", id ")?;
    put_bytes(&mut text, command.id.as_slice())?;
    Ok(text)
}

/// Puts the first refusal of a line.
fn put_refusal(text: &mut String, line: &Line) -> Result<(), Memory> {
    match CommandName::admit(line) {
        Ok(_) => text.push_str("InvalidOptions")?,
        Err(refusal) => write!(text, "{refusal:?}")?,
    }
    Ok(())
}

/// The first refusal of a line, the code and the id of the reply.
fn refused(alloc: Global, line: &Line, code: ErrorCode) -> Result<String, Memory> {
    let mut text = String::new(alloc);
    put_refusal(&mut text, line)?;
    let number = code.number();
    write!(text, ", code {number}, id ")?;
    put_bytes(&mut text, id_of(line))?;
    Ok(text)
}

/// The request of the command that a line is, or its first refusal.
fn request_of(alloc: Global, line: &Line) -> Result<String, Memory> {
    match Command::of(alloc, line) {
        Ok(command) => requested(alloc, &command),
        Err(CommandError::Code(code)) => refused(alloc, line, code),
        Err(CommandError::Memory) => Err(Memory),
    }
}

/// The request of the command of the line that is read, or its first refusal.
pub(crate) fn told_command(alloc: Global, input: &[u8]) -> Result<String, Memory> {
    match read_line(alloc, input) {
        Ok(line) => request_of(alloc, &line),
        Err(LineError::Parse) => String::from_str(alloc, "Parse"),
        Err(LineError::Memory) => Err(Memory),
    }
}
