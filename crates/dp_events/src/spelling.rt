//! The event that a line spells.
ghost use Rattle.std.specs.Prelude.{◌≡◌, [], ◌∷◌, ◌++◌, ◌<◌, length, IfOk, IfSome, option_map};
ghost use Rattle.dp_outside.specs.Names.{host_limit, key_limit};
ghost use Rattle.dp_bytes.specs.Decimals.{decimal_in};
ghost use Rattle.std.specs.Option.{option_copied};
ghost use Rattle.dp_events.specs.inner.Spelling as spec;

use crate::event::{Act, Event};
use crate::hex::bytes_in;
use dp_bytes::{Bytes, Memory, decimal};
use dp_outside::{HOST_LIMIT, KEY_LIMIT, is_name};
use std::alloc::Global;

/// The greatest number of a link.
const LINK_LIMIT: u64 = 4_294_967_294;

/// The place of the first blank.
fn first_blank(bytes: &[u8]) -> Option<usize>
    ensures first { spec.FirstBlank bytes.now result }
    ensures within { IfSome result (λ at. at < length bytes.now) }
{
    for (at, b) in bytes.iter().enumerate() {
        if *b == b' ' {
            return Some(at);
        }
    }
    None
}

/// What stands before the first blank, and what behind it.
fn first_word(bytes: &[u8]) -> (&[u8], Option<&[u8]>)
    ensures word { result.0.now ≡ spec.word_of bytes.now }
    ensures part { option_copied result.1 ≡ spec.part_of bytes.now }
{
    match first_blank(bytes) {
        Some(at) => (&bytes[..at], Some(&bytes[at + 1..])),
        None => (bytes, None),
    }
}

/// The number of a link, from 1 to 4,294,967,294, that a text spells.
fn link_in(text: &[u8]) -> Option<u32>
    ensures { result ≡ spec.link_in text.now }
{
    let link = decimal(text, LINK_LIMIT)?;
    if link == 0 { None } else { Some(link as u32) }
}

/// The act that a word without a part spells: `close`, or `say`, which gives a NUL alone.
fn act_alone(alloc: Global, word: &[u8]) -> Result<Option<Act>, Memory>
    ensures { IfOk result (λ act. act ≡ spec.act_alone word.now) }
{
    if word == b"close".as_slice() {
        Ok(Some(Act::Close))
    } else if word == b"say".as_slice() {
        Ok(Some(Act::Give(Bytes::from_slice(alloc, b"\0")?)))
    } else {
        Ok(None)
    }
}

/// The act of an IDE that comes from the host of this name; none where the part is no such name.
fn ide(alloc: Global, part: &[u8]) -> Result<Option<Act>, Memory>
    ensures { IfOk result (λ act. act ≡ spec.name_in host_limit Act.Ide part.now) }
{
    if is_name(part, HOST_LIMIT) {
        Ok(Some(Act::Ide(Bytes::from_slice(alloc, part)?)))
    } else {
        Ok(None)
    }
}

/// The act of an engine that comes with this key; none where the part is no key.
fn engine(alloc: Global, part: &[u8]) -> Result<Option<Act>, Memory>
    ensures { IfOk result (λ act. act ≡ spec.name_in key_limit Act.Engine part.now) }
{
    if is_name(part, KEY_LIMIT) {
        Ok(Some(Act::Engine(Bytes::from_slice(alloc, part)?)))
    } else {
        Ok(None)
    }
}

/// The act that gives the bytes that the part spells in hexadecimal; none where it spells none.
fn give(alloc: Global, part: &[u8]) -> Result<Option<Act>, Memory>
    ensures { IfOk result (λ act. act ≡ option_map Act.Give (spec.bytes_in part.now)) }
{
    match bytes_in(alloc, part)? {
        Some(bytes) => Ok(Some(Act::Give(Bytes::of(bytes)))),
        None => Ok(None),
    }
}

/// The act that gives the part as it stands, and a NUL behind it.
fn say(alloc: Global, part: &[u8]) -> Result<Act, Memory>
    ensures { IfOk result (λ act. act ≡ Act.Give (part.now ++ 0 ∷ [])) }
{
    let mut bytes = Vec::from_slice(alloc, part)?;
    bytes.push(0)?;
    Ok(Act::Give(Bytes::of(bytes)))
}

/// The act `move` of a count of 32 bits; none where the part spells no such count.
fn read_of(part: &[u8]) -> Option<Act>
    ensures { result ≡ option_map Act.Move (decimal_in spec.greatest_count part.now) }
{
    match decimal(part, u64::from(u32::MAX)) {
        Some(count) => Some(Act::Move(count as u32)),
        None => None,
    }
}

/// The act that a word and its part spell, if they spell one.
fn act_with(alloc: Global, word: &[u8], part: &[u8]) -> Result<Option<Act>, Memory>
    ensures { IfOk result (λ act. act ≡ spec.act_with word.now part.now) }
{
    if word == b"ide".as_slice() {
        ide(alloc, part)
    } else if word == b"engine".as_slice() {
        engine(alloc, part)
    } else if word == b"give".as_slice() {
        give(alloc, part)
    } else if word == b"say".as_slice() {
        Ok(Some(say(alloc, part)?))
    } else if word == b"move".as_slice() {
        Ok(read_of(part))
    } else {
        Ok(None)
    }
}

/// The act that a word, with its part where it has one, spells, if it spells one.
fn act_in(alloc: Global, word: &[u8], part: Option<&[u8]>) -> Result<Option<Act>, Memory>
    ensures { IfOk result (λ act. act ≡ spec.act_in word.now (option_copied part.entry)) }
{
    match part {
        None => act_alone(alloc, word),
        Some(part) => act_with(alloc, word, part),
    }
}

/// The event that a word spells with the link and the part behind it, if it spells one.
fn event_in(alloc: Global, word: &[u8], rest: &[u8]) -> Result<Option<Event>, Memory>
    ensures { IfOk result (λ event. event ≡ spec.event_in word.now rest.now) }
{
    let (text, part) = first_word(rest);
    let Some(link) = link_in(text) else {
        return Ok(None);
    };
    match act_in(alloc, word, part)? {
        Some(act) => Ok(Some(Event { link, act })),
        None => Ok(None),
    }
}

/// The event that a line spells, if it spells one.
#[tactic(auto, unfolding(crate::specs::inner::Spelling::spelled))]
pub(crate) fn spelled(alloc: Global, line: &[u8]) -> Result<Option<Event>, Memory>
    ensures { IfOk result (λ event. event ≡ spec.spelled line.now) }
{
    let (word, rest) = first_word(line);
    match rest {
        Some(rest) => event_in(alloc, word, rest),
        None => Ok(None),
    }
}
