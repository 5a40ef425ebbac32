//! The texts of the messages of an answer.

ghost use Rattle.std.specs.Prelude.{◌≡◌, ◌+◌, ◌++◌, [], ◌∷◌, IfOk, OnOk, length, map, option_map};
ghost use Rattle.std.specs.Str.{IsUtf8};
ghost use Rattle.serde_json.specs.View.{view};
ghost use Rattle.serde_json.specs.Written.{compact_text};
ghost use Rattle.dp_bodies.specs.Requests.{request_seen};
ghost use Rattle.dp_dap_messages.specs.Messages as spec;
ghost use Rattle.dp_dap_messages.specs.Messages.{HasNoFloat};

use crate::effects::{News, Refusal};
use crate::messages::{event, exited_body, output_body, refused, stopped_body, success};
use dp_bodies::{DapRequest, message_text};
use dp_bytes::{Bytes, Memory};
use serde_json::Value;
use std::alloc::Global;

/// The number behind this one. Numbers that pass 64 bits do not fit into memory.
pub(crate) fn behind(number: u64) -> Result<u64, Memory>
    ensures { IfOk result (λ next. next ≡ number + 1) }
{
    match number.checked_add(1) {
        Some(next) => Ok(next),
        None => Err(Memory),
    }
}

/// The text of an event.
fn event_text(alloc: Global, seq: u64, name: &str, body: Option<Value>) -> Result<Bytes, Memory>
    requires { HasNoFloat (option_map view body) }
    ensures { IfOk result (λ text. text ≡ compact_text (spec.event seq name.now (option_map view body))) }
{
    let message = event(alloc, seq, name, body)?;
    message_text(alloc, &message)
}

/// The text of the response to a request that was done.
fn success_text(
    alloc: Global,
    seq: u64,
    request: &DapRequest,
    body: Option<Value>,
) -> Result<Bytes, Memory>
    requires utf8 { IsUtf8 request.now.command }
    requires no_float { HasNoFloat (option_map view body) }
    ensures { IfOk result (λ text. text
        ≡ compact_text (spec.success seq (request_seen request.now) (option_map view body))) }
{
    let message = success(alloc, seq, request, body)?;
    message_text(alloc, &message)
}

/// The text of the response to a request that is refused.
fn refused_text(
    alloc: Global,
    seq: u64,
    request: &DapRequest,
    why: Refusal,
) -> Result<Bytes, Memory>
    requires { IsUtf8 request.now.command }
    ensures { IfOk result (λ text. text ≡ compact_text (spec.refused seq (request_seen request.now) why)) }
{
    let message = refused(alloc, seq, request, why)?;
    message_text(alloc, &message)
}

/// Puts an event behind the messages.
fn put_event(
    alloc: Global,
    texts: &mut Vec<Bytes>,
    seq: u64,
    name: &str,
    body: Option<Value>,
) -> Result<(), Memory>
    requires { HasNoFloat (option_map view body) }
    ensures { OnOk result (texts.new.items
        ≡ texts.old.items ++ compact_text (spec.event seq name.now (option_map view body)) ∷ []) }
{
    let text = event_text(alloc, seq, name, body)?;
    texts.push(text)?;
    Ok(())
}

/// Puts the event of what the program wrote behind the messages, if it wrote something; answers the last number.
fn put_output(
    alloc: Global,
    texts: &mut Vec<Bytes>,
    sent: u64,
    written: &[u8],
) -> Result<u64, Memory>
    ensures put { OnOk result (texts.new.items
        ≡ texts.old.items ++ map compact_text (spec.numbered sent (spec.output_events written.now))) }
    ensures last { IfOk result (λ last. last ≡ sent + length (spec.output_events written.now)) }
{
    if written.is_empty() {
        return Ok(sent);
    }
    let seq = behind(sent)?;
    let body = output_body(alloc, written)?;
    put_event(alloc, texts, seq, "output", Some(body))?;
    Ok(seq)
}

/// Puts the events of what became of the program behind the messages.
fn put_news(alloc: Global, texts: &mut Vec<Bytes>, sent: u64, news: News) -> Result<(), Memory>
    ensures { OnOk result (texts.new.items
        ≡ texts.old.items ++ map compact_text (spec.numbered sent (spec.news_events news))) }
{
    match news {
        News::Nothing => Ok(()),
        News::Initialized => put_event(alloc, texts, behind(sent)?, "initialized", None),
        News::Stopped(reason) => {
            let body = stopped_body(alloc, reason)?;
            put_event(alloc, texts, behind(sent)?, "stopped", Some(body))
        }
        News::Ended(code) => {
            let seq = behind(sent)?;
            let body = exited_body(alloc, code)?;
            put_event(alloc, texts, seq, "exited", Some(body))?;
            put_event(alloc, texts, behind(seq)?, "terminated", None)
        }
    }
}

/// The messages of a request that was done: its response, what the program wrote, and what became of it.
#[tactic(auto, using(crate::proofs::MessageLaws::told_in_turn))]
pub fn messages_of(
    alloc: Global,
    sent: u64,
    request: &DapRequest,
    body: Option<Value>,
    written: &[u8],
    news: News,
) -> Result<Vec<Bytes>, Memory>
    requires utf8 { IsUtf8 request.now.command }
    requires no_float { HasNoFloat (option_map view body) }
    ensures { IfOk result (λ texts. texts.items
        ≡ map compact_text (spec.success (sent + 1) (request_seen request.now) (option_map view body)
        ∷ spec.numbered (sent + 1) (spec.output_events written.now ++ spec.news_events news))) }
{
    let seq = behind(sent)?;
    let text = success_text(alloc, seq, request, body)?;
    let mut texts = Vec::new(alloc);
    texts.push(text)?;
    let last = put_output(alloc, &mut texts, seq, written)?;
    put_news(alloc, &mut texts, last, news)?;
    Ok(texts)
}

/// The one message of a request that is refused.
pub fn turned_down(
    alloc: Global,
    sent: u64,
    request: &DapRequest,
    why: Refusal,
) -> Result<Vec<Bytes>, Memory>
    requires { IsUtf8 request.now.command }
    ensures { IfOk result (λ texts. texts.items
        ≡ map compact_text (spec.refused (sent + 1) (request_seen request.now) why ∷ [])) }
{
    let seq = behind(sent)?;
    let text = refused_text(alloc, seq, request, why)?;
    let mut texts = Vec::new(alloc);
    texts.push(text)?;
    Ok(texts)
}
