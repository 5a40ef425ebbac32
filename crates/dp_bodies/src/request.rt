//! Requests, read from their texts.

ghost use Rattle.std.specs.Prelude.{◌≡◌, Some, None, IfOk, IfSome, Err, option_map, codes};
ghost use Rattle.std.specs.Prelude.{true};
ghost use Rattle.std.specs.Str.{IsUtf8, is_utf8};
ghost use Rattle.serde_json.specs.Find.{get};
ghost use Rattle.serde_json.specs.Read.{read};
ghost use Rattle.serde_json.specs.View.{view};
ghost use Rattle.dp_bodies.specs.Requests as spec;
ghost use Rattle.dp_bodies.specs.declared.errors.DapError.TheVariants.{NotRequest};

use crate::errors::DapError;
use dp_bytes::{Bytes, Memory};
use serde_json::Value;
use std::alloc::Global;

/// The most that a number of a request is.
const NUMBER_LIMIT: u64 = 2_147_483_647;

/// A request: its number, what it asks for, and with what.
#[derive(Drop)]
pub struct DapRequest {
    pub seq: u32,
    /// In UTF-8.
    pub command: Bytes,
    pub arguments: Option<Value>,
}

/// The whole number from 0 to 2,147,483,647 that a value is.
pub fn whole(value: &Value) -> Option<u32>
    ensures { result ≡ spec.whole (view value.now) }
{
    match value.as_u64() {
        Some(number) if number <= NUMBER_LIMIT => Some(number as u32),
        _ => None,
    }
}

/// Whether the member of this name is this text.
fn says(value: &Value, name: &str, text: &str) -> bool
    ensures { result ≡ spec.says name.now text.now (view value.now) }
{
    match value.get(name).and_then(Value::as_str) {
        Some(found) => text.as_bytes() == found.as_bytes(),
        None => false,
    }
}

/// The number of a message, from 1 on.
fn seq_of(value: &Value) -> Option<u32>
    ensures { result ≡ spec.seq_of (view value.now) }
{
    let seq = value.get("seq").and_then(whole)?;
    if seq == 0 { None } else { Some(seq) }
}

/// What a request asks for.
fn command_of(value: &Value) -> Option<&str>
    ensures { option_map (λ s. s.now) result ≡ spec.command_of (view value.now) }
{
    value.get("command").and_then(Value::as_str)
}

/// Takes the arguments out of a request.
fn take_arguments(value: &mut Value) -> Option<Value>
    ensures { option_map view result ≡ get (codes "arguments") (view value.old) }
{
    match value.get_mut("arguments") {
        Some(found) => Some(found.take()),
        None => None,
    }
}

/// The value that a text is.
fn read_value(alloc: Global, text: &[u8]) -> Result<Value, DapError>
    ensures ok { IfOk result (λ value. (is_utf8 text.now ≡ true) × (read text.now ≡ Some (view value))) }
    ensures refused { result ≡ Err NotRequest → is_utf8 text.now ≡ true → read text.now ≡ None }
{
    match Value::from_slice(alloc, text) {
        Ok(value) => Ok(value),
        Err(error) if error.is_memory() => Err(DapError::Memory),
        Err(_) => Err(DapError::NotRequest),
    }
}

/// The request that a value is. Its arguments are not copied.
fn request_from(alloc: Global, value: Value) -> Result<Option<DapRequest>, Memory>
    ensures request { IfOk result (λ request. option_map spec.request_seen request ≡ spec.request_of (view value)) }
    ensures utf8 { IfOk result (λ request. IfSome request (λ r. IsUtf8 r.command)) }
{
    let mut value = value;
    if !says(&value, "type", "request") {
        return Ok(None);
    }
    let Some(seq) = seq_of(&value) else {
        return Ok(None);
    };
    let command = match command_of(&value) {
        Some(command) => Bytes::from_slice(alloc, command.as_bytes())?,
        None => return Ok(None),
    };
    let arguments = take_arguments(&mut value);
    Ok(Some(DapRequest {
        seq,
        command,
        arguments,
    }))
}

/// The request that a text is.
///
/// `NotRequest` where it is none: no JSON in UTF-8 of at most 127 levels, no object, or one without `type` "request",
/// a `seq` from 1 to 2,147,483,647 and a text `command`. Of members that stand twice the last counts.
pub fn request_of(alloc: Global, text: &[u8]) -> Result<DapRequest, DapError>
    ensures ok { IfOk result (λ request. spec.request_in text.now ≡ Some (spec.request_seen request)) }
    ensures utf8 { IfOk result (λ request. IsUtf8 request.command) }
    ensures refused { result ≡ Err NotRequest → spec.request_in text.now ≡ None }
{
    let value = read_value(alloc, text)?;
    match request_from(alloc, value)? {
        Some(request) => Ok(request),
        None => Err(DapError::NotRequest),
    }
}
