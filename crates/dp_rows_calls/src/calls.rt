//! The calls that rows name. The first field of a row names its call and has the input; what comes of it is reported in
//! words, which the field `gives` has to have.

use crate::language_calls::LanguageCall;
use crate::proxy_calls::ProxyCall;
use crate::text_calls::TextCall;
use dp_rows::{Differences, Memory, Row};
use std::alloc::Global;

/// A call.
#[derive(Clone, Copy)]
enum Call {
    OfTexts(TextCall),
    OfLanguage(LanguageCall),
    OfProxy(ProxyCall),
}

const CALLS: [(&[u8], Call); 23] = [
    (b"read", Call::OfTexts(TextCall::Read)),
    (b"head", Call::OfTexts(TextCall::Head)),
    (b"packet", Call::OfTexts(TextCall::Packet)),
    (b"line", Call::OfTexts(TextCall::Line)),
    (b"command", Call::OfTexts(TextCall::Command)),
    (b"commands", Call::OfTexts(TextCall::Commands)),
    (b"packets", Call::OfTexts(TextCall::Packets)),
    (b"setting", Call::OfTexts(TextCall::Setting)),
    (b"lex", Call::OfLanguage(LanguageCall::Lex)),
    (
        b"lex_expression",
        Call::OfLanguage(LanguageCall::LexExpression),
    ),
    (b"parse_file", Call::OfLanguage(LanguageCall::ParseFile)),
    (
        b"parse_expression",
        Call::OfLanguage(LanguageCall::ParseExpression),
    ),
    (b"code_lines", Call::OfLanguage(LanguageCall::CodeLines)),
    (b"pure", Call::OfLanguage(LanguageCall::Pure)),
    (b"events", Call::OfProxy(ProxyCall::Events)),
    (b"asked", Call::OfProxy(ProxyCall::Asked)),
    (b"key", Call::OfProxy(ProxyCall::Key)),
    (b"up", Call::OfProxy(ProxyCall::Up)),
    (b"down", Call::OfProxy(ProxyCall::Down)),
    (b"full", Call::OfProxy(ProxyCall::Full)),
    (b"engine", Call::OfProxy(ProxyCall::Engine)),
    (b"given", Call::OfProxy(ProxyCall::Given)),
    (b"moved", Call::OfProxy(ProxyCall::Moved)),
];

/// The call of this name.
fn call_of(name: &[u8]) -> Option<Call> {
    for (spelt, call) in CALLS.iter() {
        if *spelt == name {
            return Some(*call);
        }
    }
    None
}

/// What comes of a call, in words.
fn answered(alloc: Global, call: Call, row: &Row<'_>, input: &[u8]) -> Result<String, Memory> {
    match call {
        Call::OfTexts(call) => call.answer(alloc, row, input),
        Call::OfLanguage(call) => call.answer(alloc, input),
        Call::OfProxy(call) => call.answer(alloc, input),
    }
}

/// Makes the call of a row, and tells what differs.
pub(crate) fn differences_of(alloc: Global, row: &Row<'_>) -> Result<Differences, Memory> {
    let Some(first) = row.fields.first() else {
        return Differences::of_mistake(alloc, "no call", row.title);
    };
    let Some(call) = call_of(first.name) else {
        return Differences::of_mistake(alloc, "no call has this name", first.name);
    };
    let input = first.bytes(alloc)?;
    let found = answered(alloc, call, row, input.as_slice())?;
    Differences::of_given(alloc, row, found.as_str())
}
