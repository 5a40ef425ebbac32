//! What a session that listens answers beyond one that does not.
ghost use Rattle.std.specs.Prelude.{◌≡◌, IfOk, IfSome, Some, false, option_map, true};
ghost use Rattle.dp_command.specs.Refusals.{id_of};
ghost use Rattle.dp_command.specs.Options.{text_given};
ghost use Rattle.dp_command.specs.Letters as letter;
ghost use Rattle.dp_engine.specs.Responses.{response_text, success_response};
ghost use Rattle.dp_engine.specs.ShortLines.{IsShort, IsShortLine};
ghost use Rattle.dp_async.specs.Listens as spec;
ghost use Rattle.dp_async.specs.inner.Standing.{IsRunningAnswer};
ghost use Rattle.dp_wire.specs.Frames.{IsPacketText};

use crate::commands::{asks_for_status, asks_to_break, break_refusal, is_text, row_refusal};
use dp_bytes::{Bytes, Memory};
use dp_command::{Addressee, CommandName, Line, option_value};
use dp_engine::{fault_text, feature_text, status_text, success_text};
use dp_packet::ErrorCode;
use std::alloc::Global;

/// What a `break` is answered that is refused so, or is not refused.
pub(crate) fn break_text(
    alloc: Global,
    line: &Line,
    refusal: Option<ErrorCode>,
) -> Result<Bytes, Memory>
    requires { IsShort line.now }
    ensures text { IfOk result (λ text. text ≡ response_text (spec.unless_refused refusal (Some line.now)
        (success_response line.now.name (id_of line.now) true))) }
    ensures is_text { IfOk result IsPacketText }
{
    let to = Addressee::of(alloc, line)?;
    match refusal {
        Some(code) => fault_text(alloc, &to, code),
        None => success_text(alloc, &to, true),
    }
}

/// What a `status` is answered while the program runs.
pub(crate) fn running_text(alloc: Global, line: &Line) -> Result<Bytes, Memory>
    requires { IsShort line.now }
    ensures text { IfOk result (λ text. text ≡ response_text (spec.running_response (Some line.now))) }
    ensures is_text { IfOk result IsPacketText }
{
    let to = Addressee::of(alloc, line)?;
    match row_refusal(CommandName::Status, line) {
        Some(code) => fault_text(alloc, &to, code),
        None => status_text(alloc, &to, b"running", b"ok"),
    }
}

/// The response that only a session that listens gives to a line while no continuation is on its way, if it gives one.
pub(crate) fn own_text(alloc: Global, line: &Option<Line>) -> Result<Option<Bytes>, Memory>
    requires { IsShortLine line.now }
    ensures text { IfOk result (λ found. found ≡ option_map response_text (spec.own_response line.now)) }
    ensures is_text { IfOk result (λ found. IfSome found IsPacketText) }
{
    match line {
        None => Ok(None),
        Some(asked) => own_text_of(alloc, asked, asks_to_break(line)),
    }
}

/// The same of a line, which asks to break or does not.
fn own_text_of(alloc: Global, line: &Line, breaks: bool) -> Result<Option<Bytes>, Memory>
    requires short { IsShort line.now }
    requires breaks { breaks ≡ spec.asks_to_break (Some line.now) }
    ensures text { IfOk result (λ found. found ≡ option_map response_text (spec.own_response (Some line.now))) }
    ensures is_text { IfOk result (λ found. IfSome found IsPacketText) }
{
    if breaks {
        let text = break_text(alloc, line, break_refusal(line, false))?;
        return Ok(Some(text));
    }
    own_feature(alloc, line)
}

/// The response to a line that asks for a feature that only a session that listens has, if it does.
fn own_feature(alloc: Global, line: &Line) -> Result<Option<Bytes>, Memory>
    requires { IsShort line.now }
    ensures text { IfOk result (λ found. found ≡ option_map response_text (spec.own_feature line.now)) }
    ensures is_text { IfOk result (λ found. IfSome found IsPacketText) }
{
    if !is_text(line.name.as_slice(), b"feature_get")
        || row_refusal(CommandName::FeatureGet, line).is_some()
    {
        return Ok(None);
    }
    listening_feature(alloc, line, text_given(line))
}

/// The name that is asked for; empty where none is.
fn text_given(line: &Line) -> &[u8]
    ensures { result.now ≡ text_given letter.n line.now.options }
{
    match option_value(line.options.as_slice(), b'n') {
        Some(name) => name,
        None => &[],
    }
}

/// What is told of a feature that only a session that listens has.
fn listening_feature(alloc: Global, line: &Line, name: &[u8]) -> Result<Option<Bytes>, Memory>
    requires { IsShort line.now }
    ensures text { IfOk result (λ found. found
        ≡ option_map response_text (spec.listening_feature (Some line.now) name.now)) }
    ensures is_text { IfOk result (λ found. IfSome found IsPacketText) }
{
    if is_text(name, b"supports_async") {
        let to = Addressee::of(alloc, line)?;
        let value = Bytes::from_slice(alloc, b"1")?;
        let text = feature_text(alloc, &to, b"supports_async", b"1", Some(value))?;
        return Ok(Some(text));
    }
    if is_text(name, b"break") {
        let to = Addressee::of(alloc, line)?;
        let text = feature_text(alloc, &to, b"break", b"1", None)?;
        return Ok(Some(text));
    }
    Ok(None)
}

/// What a running program answers to a command that it hears.
#[derive(Debug, Drop)]
pub(crate) struct RunningAnswer {
    pub(crate) text: Bytes,
    /// Whether the program stops where it stands.
    pub(crate) stops: bool,
}

/// What a running program answers to a line, if it is a `status` or a `break`.
pub(crate) fn running_answer(
    alloc: Global,
    line: &Option<Line>,
) -> Result<Option<RunningAnswer>, Memory>
    requires { IsShortLine line.now }
    ensures answer { IfOk result (IsRunningAnswer line.now) }
    ensures is_text { IfOk result (λ found. IfSome found (λ told. IsPacketText told.text)) }
{
    match line {
        None => Ok(None),
        Some(asked) => running_answer_of(alloc, asked, asks_to_break(line), asks_for_status(line)),
    }
}

/// The same of a line, which asks for the one or the other, or for neither.
fn running_answer_of(
    alloc: Global,
    line: &Line,
    breaks: bool,
    status: bool,
) -> Result<Option<RunningAnswer>, Memory>
    requires short { IsShort line.now }
    requires breaks { breaks ≡ spec.asks_to_break (Some line.now) }
    requires status { status ≡ spec.asks_for_status (Some line.now) }
    ensures answer { IfOk result (IsRunningAnswer (Some line.now)) }
    ensures is_text { IfOk result (λ found. IfSome found (λ told. IsPacketText told.text)) }
{
    if breaks {
        let refusal = break_refusal(line, true);
        let text = break_text(alloc, line, refusal)?;
        return Ok(Some(RunningAnswer {
            text,
            stops: refusal.is_none(),
        }));
    }
    if status {
        let text = running_text(alloc, line)?;
        return Ok(Some(RunningAnswer { text, stops: false }));
    }
    Ok(None)
}
