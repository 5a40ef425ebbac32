//! Messages as values.

ghost use Rattle.std.specs.Prelude.{◌≡◌, true, codes, IfOk, map, option_map, string_bytes};
ghost use Rattle.std.specs.Str.{IsUtf8};
ghost use Rattle.serde_json.specs.Data.{boolean, string};
ghost use Rattle.serde_json.specs.View.{view};
ghost use Rattle.dp_bodies.specs.Requests.{request_seen};
ghost use Rattle.dp_dap_messages.specs.Messages as spec;
ghost use Rattle.dp_dap_messages.specs.Values as values;

use crate::effects::{Refusal, StopReason};
use dp_bodies::{DapRequest, json_text};
use dp_bytes::Memory;
use serde_json::{Value, json};
use std::alloc::Global;

/// A PHP text.
pub(crate) fn php(alloc: Global, bytes: &[u8]) -> Result<Value, Memory>
    ensures { IfOk result (λ value. view value ≡ values.php bytes.now) }
{
    let text = json_text(alloc, bytes)?;
    Ok(Value::String(text))
}

/// What a request asked for, as it was spelt.
fn command(alloc: Global, request: &DapRequest) -> Result<Value, Memory>
    requires { IsUtf8 request.now.command }
    ensures { IfOk result (λ value. view value ≡ string request.now.command) }
{
    let text = String::from_utf8_lossy(alloc, request.command.as_slice())?;
    Ok(Value::String(text))
}

/// The text of a refusal.
fn refusal_text(alloc: Global, why: Refusal) -> Result<String, Memory>
    ensures { IfOk result (λ text. string_bytes text ≡ spec.refusal_text why) }
{
    match why {
        Refusal::Unsupported => String::from_str(alloc, "unsupported"),
        Refusal::NotNow => String::from_str(alloc, "not now"),
        Refusal::BadArguments => String::from_str(alloc, "bad arguments"),
        Refusal::TooManyReferences => String::from_str(alloc, "too many references"),
        Refusal::Code(number) => {
            let mut text = String::from_str(alloc, "dbgp ")?;
            let digits = number.to_string(alloc)?;
            text.push_str(digits.as_str())?;
            Ok(text)
        }
    }
}

/// The response to a request that was done.
pub(crate) fn success(
    alloc: Global,
    seq: u64,
    request: &DapRequest,
    body: Option<Value>,
) -> Result<Value, Memory>
    requires { IsUtf8 request.now.command }
    ensures { IfOk result (λ value. view value ≡ spec.success seq (request_seen request.now) (option_map view body)) }
{
    let command = command(alloc, request)?;
    let to = request.seq;
    match body {
        Some(body) => json!(in alloc; {
            "body": body, "command": command, "request_seq": to, "seq": seq, "success": true, "type": "response"
        }),
        None => json!(in alloc; {
            "command": command, "request_seq": to, "seq": seq, "success": true, "type": "response"
        }),
    }
}

/// The response to a request that is refused.
pub(crate) fn refused(
    alloc: Global,
    seq: u64,
    request: &DapRequest,
    why: Refusal,
) -> Result<Value, Memory>
    requires { IsUtf8 request.now.command }
    ensures { IfOk result (λ value. view value ≡ spec.refused seq (request_seen request.now) why) }
{
    let command = command(alloc, request)?;
    let to = request.seq;
    let text = refusal_text(alloc, why)?;
    json!(in alloc; {
        "command": command,
        "message": text,
        "request_seq": to,
        "seq": seq,
        "success": false,
        "type": "response"
    })
}

/// An event.
pub(crate) fn event(
    alloc: Global,
    seq: u64,
    name: &str,
    body: Option<Value>,
) -> Result<Value, Memory>
    ensures { IfOk result (λ value. view value ≡ spec.event seq name.now (option_map view body)) }
{
    match body {
        Some(body) => json!(in alloc; {
            "body": body, "event": name, "seq": seq, "type": "event"
        }),
        None => json!(in alloc; {
            "event": name, "seq": seq, "type": "event"
        }),
    }
}

/// What an event of output tells.
pub(crate) fn output_body(alloc: Global, written: &[u8]) -> Result<Value, Memory>
    ensures { IfOk result (λ value. view value ≡ spec.output_body written.now) }
{
    let output = php(alloc, written)?;
    json!(in alloc; {
        "category": "stdout", "output": output
    })
}

/// The word for why the program stands.
fn reason_text(reason: StopReason) -> &'static str
    ensures { result.now ≡ spec.reason_text reason }
{
    match reason {
        StopReason::Entry => "entry",
        StopReason::Breakpoint => "breakpoint",
        StopReason::Step => "step",
    }
}

/// What an event of a stop tells.
pub(crate) fn stopped_body(alloc: Global, reason: StopReason) -> Result<Value, Memory>
    ensures { IfOk result (λ value. view value ≡ spec.stopped_body reason) }
{
    let reason = reason_text(reason);
    json!(in alloc; {
        "allThreadsStopped": true, "reason": reason, "threadId": 1
    })
}

/// What the event of the program's end tells.
pub(crate) fn exited_body(alloc: Global, code: u8) -> Result<Value, Memory>
    ensures { IfOk result (λ value. view value ≡ spec.one_member (codes "exitCode") (values.count code)) }
{
    json!(in alloc; {
        "exitCode": code
    })
}

/// The body that tells what the gateway can do.
pub fn capabilities(alloc: Global) -> Result<Value, Memory>
    ensures { IfOk result (λ value. view value ≡ spec.capabilities) }
{
    json!(in alloc; {
        "supportsConfigurationDoneRequest": true
    })
}

/// The body that tells that all threads go on.
pub fn all_continued(alloc: Global) -> Result<Value, Memory>
    ensures { IfOk result (λ value. view value ≡ spec.one_member (codes "allThreadsContinued") (boolean true)) }
{
    json!(in alloc; {
        "allThreadsContinued": true
    })
}

/// The body that tells of the one thread.
pub fn one_thread(alloc: Global) -> Result<Value, Memory>
    ensures { IfOk result (λ value. view value ≡ spec.one_thread) }
{
    json!(in alloc; {
        "threads": [{
            "id": 1, "name": "main"
        }]
    })
}

/// A breakpoint that was set, as it is told of.
pub fn verified(alloc: Global, id: u32, line: u32) -> Result<Value, Memory>
    ensures { IfOk result (λ value. view value ≡ spec.verified id line) }
{
    json!(in alloc; {
        "id": id, "line": line, "verified": true
    })
}

/// A breakpoint that was not set, as it is told of.
pub fn unverified(alloc: Global, why: Refusal) -> Result<Value, Memory>
    ensures { IfOk result (λ value. view value ≡ spec.unverified why) }
{
    let text = refusal_text(alloc, why)?;
    json!(in alloc; {
        "message": text, "verified": false
    })
}

/// The body with a list under a name.
pub fn list(alloc: Global, name: &str, values: Vec<Value>) -> Result<Value, Memory>
    ensures { IfOk result (λ value. view value ≡ spec.list name.now (map view values.items)) }
{
    let values = Value::Array(values);
    json!(in alloc; {
        (name): values
    })
}

/// The body with frames, and how many there are in all.
pub fn frames_body(alloc: Global, frames: Vec<Value>, total: usize) -> Result<Value, Memory>
    ensures { IfOk result (λ value. view value ≡ spec.frames_body (map view frames.items) total) }
{
    let frames = Value::Array(frames);
    json!(in alloc; {
        "stackFrames": frames, "totalFrames": total
    })
}

/// The body with the value of an expression.
pub fn result_body(alloc: Global, text: &[u8]) -> Result<Value, Memory>
    ensures { IfOk result (λ value. view value ≡ spec.result_body text.now) }
{
    let text = php(alloc, text)?;
    json!(in alloc; {
        "result": text, "variablesReference": 0
    })
}
