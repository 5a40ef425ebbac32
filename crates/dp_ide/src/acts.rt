//! The instruction of a line.
ghost use Rattle.std.specs.Prelude.{◌↔◌, ◌++◌, IfOk, IsTrue, codes, option_map};
ghost use Rattle.dp_wire.specs.Frames.{IsCommand};
ghost use Rattle.dp_ide.specs.Scripts.{ActLine};
ghost use Rattle.dp_ide.specs.inner.Readers.{IsNamed, Reads};

use crate::instruction::Act;
use crate::lines::{behind, run_before};
use crate::texts::{number_in, text_behind};
use dp_bytes::{Bytes, Memory};
use dp_command::{LineError, option_value, read_line};
use dp_wire::COMMAND_LIMIT;
use std::alloc::Global;

/// A name, and the text behind it.
struct Named {
    name: Bytes,
    text: Bytes,
}

/// Whether it may be sent: it has no NUL, and is within the limit.
fn is_command(line: &[u8]) -> bool
    ensures { IsTrue result ↔ IsCommand line.now }
{
    line.len() <= COMMAND_LIMIT && run_before(line, 0) == line.len()
}

/// The command of a `send`: a line with an `-i`.
fn send_in(alloc: Global, line: &[u8]) -> Result<Option<Act>, Memory>
    ensures { IfOk result (Reads ActLine (codes "send " ++ line.now)) }
{
    if !is_command(line) {
        return Ok(None);
    }
    let parts = match read_line(alloc, line) {
        Ok(parts) => parts,
        Err(LineError::Parse) => return Ok(None),
        Err(LineError::Memory) => return Err(Memory),
    };
    match option_value(parts.options.as_slice(), b'i') {
        None => Ok(None),
        Some(id) => Ok(Some(Act::Send {
            line: Bytes::from_slice(alloc, line)?,
            id: Bytes::from_slice(alloc, id)?,
        })),
    }
}

/// A name and a text.
fn named_in(alloc: Global, bytes: &[u8]) -> Result<Option<Named>, Memory>
    ensures { IfOk result (λ found. Reads IsNamed bytes.now (option_map (λ n. (n.name, n.text)) found)) }
{
    let end = run_before(bytes, b' ');
    if end == 0 {
        return Ok(None);
    }
    match text_behind(alloc, &bytes[end..])? {
        None => Ok(None),
        Some(text) => Ok(Some(Named {
            name: Bytes::from_slice(alloc, &bytes[..end])?,
            text,
        })),
    }
}

/// The instruction that `attr ` and these bytes spell, if they are a name and a text.
fn attr_in(alloc: Global, bytes: &[u8]) -> Result<Option<Act>, Memory>
    ensures { IfOk result (Reads ActLine (codes "attr " ++ bytes.now)) }
{
    match named_in(alloc, bytes)? {
        None => Ok(None),
        Some(Named { name, text }) => Ok(Some(Act::Attr { name, text })),
    }
}

/// The instruction that `prop ` and these bytes spell, if they are a name and a text.
fn prop_in(alloc: Global, bytes: &[u8]) -> Result<Option<Act>, Memory>
    ensures { IfOk result (Reads ActLine (codes "prop " ++ bytes.now)) }
{
    match named_in(alloc, bytes)? {
        None => Ok(None),
        Some(Named { name, text }) => Ok(Some(Act::Prop { name, text })),
    }
}

/// The instruction that `code ` and these bytes spell, if they are a number of 16 bits.
fn code_in(bytes: &[u8]) -> Option<Act>
    ensures { Reads ActLine (codes "code " ++ bytes.now) result }
{
    match number_in(bytes) {
        None => None,
        Some(code) => Some(Act::Code(code)),
    }
}

/// The instruction that `out` and these bytes spell, if they are a text behind one space, or nothing.
fn out_in(alloc: Global, bytes: &[u8]) -> Result<Option<Act>, Memory>
    ensures { IfOk result (Reads ActLine (codes "out" ++ bytes.now)) }
{
    match text_behind(alloc, bytes)? {
        None => Ok(None),
        Some(text) => Ok(Some(Act::Out(text))),
    }
}

/// The instruction that a line spells.
pub(crate) fn act_in(alloc: Global, line: &[u8]) -> Result<Option<Act>, Memory>
    ensures { IfOk result (Reads ActLine line.now) }
{
    if let Some(command) = behind(line, b"send ") {
        return send_in(alloc, command);
    }
    if let Some(rest) = behind(line, b"attr ") {
        return attr_in(alloc, rest);
    }
    if let Some(number) = behind(line, b"code ") {
        return Ok(code_in(number));
    }
    if let Some(rest) = behind(line, b"prop ") {
        return prop_in(alloc, rest);
    }
    if line == b"print".as_slice() {
        return Ok(Some(Act::Print));
    }
    match behind(line, b"out") {
        Some(rest) => out_in(alloc, rest),
        None => Ok(None),
    }
}
