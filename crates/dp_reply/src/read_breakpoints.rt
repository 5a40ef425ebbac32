//! Breakpoints as they are read.

ghost use Rattle.std.specs.Prelude.{◌≡◌, codes};
ghost use Rattle.dp_reply.specs.Contents.{attribute as attribute_of};
ghost use Rattle.dp_reply.specs.Readings as spec;
ghost use Rattle.dp_reply.specs.Verdict.{Finds};

use crate::contents::{
    attribute, find, flag, is_named, number_at, number_of_32_bits_at, only_element,
    optional_number, optional_text, text_in,
};
use crate::errors::ReplyError;
use dp_bytes::Bytes;
use dp_markup::{Element, same_text};
use dp_packet::{BreakKind, BreakLine, HitRule};
use std::alloc::Global;

/// Reads the type of a breakpoint; refuses any text but `line`, `call`, `return` and `conditional`.
fn kind_in(text: &[u8]) -> Result<BreakKind, ReplyError>
    ensures { Finds (λ kind. kind) result (spec.kind_in text.now) }
{
    if same_text(text, b"line") {
        Ok(BreakKind::Line)
    } else if same_text(text, b"call") {
        Ok(BreakKind::Call)
    } else if same_text(text, b"return") {
        Ok(BreakKind::Return)
    } else if same_text(text, b"conditional") {
        Ok(BreakKind::Conditional)
    } else {
        Err(ReplyError::NotDbgp)
    }
}

/// Reads whether a breakpoint is enabled; refuses any text but `enabled` and `disabled`.
fn state_in(text: &[u8]) -> Result<bool, ReplyError>
    ensures { Finds (λ enabled. enabled) result (spec.state_in text.now) }
{
    if same_text(text, b"enabled") {
        Ok(true)
    } else if same_text(text, b"disabled") {
        Ok(false)
    } else {
        Err(ReplyError::NotDbgp)
    }
}

/// Reads a hit condition; refuses any text but `>=`, `==` and `%`.
fn rule_in(text: &[u8]) -> Result<HitRule, ReplyError>
    ensures { Finds (λ rule. rule) result (spec.rule_in text.now) }
{
    if same_text(text, b">=") {
        Ok(HitRule::AtLeast)
    } else if same_text(text, b"==") {
        Ok(HitRule::Exactly)
    } else if same_text(text, b"%") {
        Ok(HitRule::Multiple)
    } else {
        Err(ReplyError::NotDbgp)
    }
}

/// The id, what it is, and whether it is enabled.
#[tactic(auto, unfolding(crate::specs::Readings::sort_in))]
fn sort_in(e: &Element) -> Result<(u32, BreakKind, bool), ReplyError>
    ensures { Finds (λ sort. sort) result (spec.sort_in e.now) }
{
    let id = number_of_32_bits_at(e, b"id")?;
    let kind = kind_in(attribute(e, b"type")?)?;
    let enabled = state_in(attribute(e, b"state")?)?;
    Ok((id, kind, enabled))
}

/// The hits, what they are compared with and how, and whether it is temporary.
#[tactic(auto, unfolding(crate::specs::Readings::hits_in))]
fn hits_in(e: &Element) -> Result<(u64, u32, HitRule, bool), ReplyError>
    ensures { Finds (λ hits. hits) result (spec.hits_in e.now) }
{
    let hits = number_at(e, b"hit_count", u64::MAX)?;
    let hit_value = number_of_32_bits_at(e, b"hit_value")?;
    let hit_rule = rule_in(attribute(e, b"hit_condition")?)?;
    let temporary = flag(attribute(e, b"temporary")?)?;
    Ok((hits, hit_value, hit_rule, temporary))
}

/// Whether an element says that a breakpoint is resolved: by the one text that says so.
fn says_resolved(e: &Element) -> bool
    ensures { result ≡ spec.says_resolved (attribute_of (codes "resolved") e.now) }
{
    match find(e, b"resolved") {
        Some(text) => same_text(text, b"resolved"),
        None => false,
    }
}

/// Reads the expression of a breakpoint, if it has one; refuses any other element, and text beside it.
fn expression_in(alloc: Global, e: &Element) -> Result<Option<Bytes>, ReplyError>
    ensures { Finds (λ text. text) result (spec.expression_in e.now) }
{
    match only_element(e)? {
        None => Ok(None),
        Some(only) => {
            if is_named(only, b"expression") {
                Ok(Some(text_in(alloc, only)?))
            } else {
                Err(ReplyError::NotDbgp)
            }
        }
    }
}

/// The breakpoint that an element is.
#[tactic(auto, unfolding(crate::specs::Readings::breakpoint_in))]
pub(crate) fn breakpoint_in(alloc: Global, e: &Element) -> Result<BreakLine, ReplyError>
    ensures { Finds (λ line. line) result (spec.breakpoint_in e.now) }
{
    if !is_named(e, b"breakpoint") {
        return Err(ReplyError::NotDbgp);
    }
    let (id, kind, enabled) = sort_in(e)?;
    let line = optional_number(e, b"lineno")?;
    let (hits, hit_value, hit_rule, temporary) = hits_in(e)?;
    let expression = expression_in(alloc, e)?;
    Ok(BreakLine {
        id,
        kind,
        enabled,
        uri: optional_text(alloc, e, b"filename")?,
        line,
        function: optional_text(alloc, e, b"function")?,
        hits,
        hit_value,
        hit_rule,
        temporary,
        resolved: says_resolved(e),
        expression,
    })
}
