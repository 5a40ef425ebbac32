//! The lines of the transcript.
ghost use Rattle.std.specs.Prelude.{◌≡◌, ◌<◌, ◌/◌, ◌%◌, ◌++◌, ◌∷◌, [], flat_map, codes, decimal, OnOk};
ghost use Rattle.dp_events.specs.Lists.{digit as digit_of, hex};
ghost use Rattle.dp_state.specs.Statuses.{status};
ghost use Rattle.dp_world.specs.Transcript as spec;

use crate::engine::Ended;
use dp_bytes::Memory;
use dp_registry::Refusal;
use dp_state::status;
use itoa::Buffer;

// ---- parts of a line

/// The hexadecimal digit of a number below 16.
fn digit(number: u8) -> u8
    requires { number < 16 }
    ensures { result ≡ digit_of number }
{
    if number < 10 {
        b'0' + number
    } else {
        87 + number
    }
}

/// Two digits for each byte.
fn put_digits(text: &mut Vec<u8>, bytes: &[u8]) -> Result<(), Memory>
    ensures { OnOk result (text.new.items
        ≡ text.old.items ++ flat_map (λ b. digit_of (b / 16) ∷ digit_of (b % 16) ∷ []) bytes.now) }
{
    for byte in bytes {
        text.push(digit(*byte / 16))?;
        text.push(digit(*byte % 16))?;
    }
    Ok(())
}

/// Puts bytes in hexadecimal, or `-` where there are none.
fn put_hex(text: &mut Vec<u8>, bytes: &[u8]) -> Result<(), Memory>
    ensures { OnOk result (text.new.items ≡ text.old.items ++ hex bytes.now) }
{
    if bytes.is_empty() {
        text.push(b'-')?;
        Ok(())
    } else {
        put_digits(text, bytes)
    }
}

/// Puts a number in decimal.
fn put_number(text: &mut Vec<u8>, number: u64) -> Result<(), Memory>
    ensures { OnOk result (text.new.items ≡ text.old.items ++ decimal number) }
{
    let mut buffer = Buffer::new();
    text.extend_from_slice(buffer.format(number).as_bytes())?;
    Ok(())
}

/// Puts bytes as they stand.
fn put(text: &mut Vec<u8>, bytes: &[u8]) -> Result<(), Memory>
    ensures { OnOk result (text.new.items ≡ text.old.items ++ bytes.now) }
{
    text.extend_from_slice(bytes)?;
    Ok(())
}

/// A line of a word and bytes in hexadecimal.
fn hex_line(text: &mut Vec<u8>, word: &[u8], bytes: &[u8]) -> Result<(), Memory>
    ensures { OnOk result (text.new.items ≡ text.old.items ++ spec.line word.now (hex bytes.now)) }
{
    put(text, word)?;
    put(text, b" ")?;
    put_hex(text, bytes)?;
    put(text, b"\n")
}

/// A line of a word and a number.
fn number_line(text: &mut Vec<u8>, word: &[u8], number: u64) -> Result<(), Memory>
    ensures { OnOk result (text.new.items ≡ text.old.items ++ spec.line word.now (decimal number)) }
{
    put(text, word)?;
    put(text, b" ")?;
    put_number(text, number)?;
    put(text, b"\n")
}

// ---- an IDE that asked

/// A line of a word, a link and the host of its IDE.
fn host_line(text: &mut Vec<u8>, word: &[u8], link: u32, host: &[u8]) -> Result<(), Memory>
    ensures { OnOk result (text.new.items
        ≡ text.old.items ++ spec.line word.now (decimal link ++ codes " from " ++ host.now)) }
{
    put(text, word)?;
    put(text, b" ")?;
    put_number(text, u64::from(link))?;
    put(text, b" from ")?;
    put(text, host)?;
    put(text, b"\n")
}

/// The lines of an IDE of this host that was sent this reply.
pub(crate) fn registration(
    text: &mut Vec<u8>,
    link: u32,
    host: &[u8],
    reply: &[u8],
) -> Result<(), Memory>
    ensures { OnOk result (text.new.items ≡ text.old.items ++ spec.registration link host.now reply.now) }
{
    host_line(text, b"registration", link, host)?;
    hex_line(text, b"reply", reply)
}

// ---- an engine that came

/// The line of an engine, as far as its key.
fn put_session(text: &mut Vec<u8>, link: u32, key: &[u8]) -> Result<(), Memory>
    ensures { OnOk result (text.new.items
        ≡ text.old.items ++ (codes "session " ++ decimal link ++ codes " key " ++ key.now)) }
{
    put(text, b"session ")?;
    put_number(text, u64::from(link))?;
    put(text, b" key ")?;
    put(text, key)
}

/// Puts why an engine was refused: `unknown`, `busy` with the session, or `full`; nothing for any other reason.
fn put_reason(text: &mut Vec<u8>, why: &Refusal) -> Result<(), Memory>
    ensures { OnOk result (text.new.items ≡ text.old.items ++ spec.reason why.now) }
{
    match why {
        Refusal::Unknown => put(text, b"unknown"),
        Refusal::Busy { session } => {
            put(text, b"busy ")?;
            put_number(text, *session)
        }
        Refusal::Full { events: _, live: _ } => put(text, b"full"),
        _ => put(text, b""),
    }
}

/// The line of an engine that was refused.
pub(crate) fn refusal(
    text: &mut Vec<u8>,
    link: u32,
    key: &[u8],
    why: &Refusal,
) -> Result<(), Memory>
    ensures { OnOk result (text.new.items
        ≡ text.old.items ++ spec.session link key.now (codes " refused " ++ spec.reason why.now)) }
{
    put_session(text, link, key)?;
    put(text, b" refused ")?;
    put_reason(text, why)?;
    put(text, b"\n")
}

/// The line of an engine with a session, whose IDE is reached here.
pub(crate) fn admission(
    text: &mut Vec<u8>,
    link: u32,
    key: &[u8],
    host: &[u8],
    port: u16,
) -> Result<(), Memory>
    ensures { OnOk result (text.new.items ≡ text.old.items
        ++ spec.session link key.now (codes " to " ++ host.now ++ codes ":" ++ decimal port)) }
{
    put_session(text, link, key)?;
    put(text, b" to ")?;
    put(text, host)?;
    put(text, b":")?;
    put_number(text, u64::from(port))?;
    put(text, b"\n")
}

/// The lines of a session that is over: what its IDE and its engine received, and what became of the program.
pub(crate) fn service(text: &mut Vec<u8>, end: &Ended) -> Result<(), Memory>
    ensures { OnOk result (text.new.items ≡ text.old.items
        ++ (spec.line (codes "ide") (hex end.now.received.items)
        ++ spec.line (codes "engine") (hex end.now.given.items)
        ++ spec.line (codes "output") (hex end.now.own.items)
        ++ spec.line (codes "end") (decimal (status end.now.outcome)))) }
{
    hex_line(text, b"ide", end.received.as_slice())?;
    hex_line(text, b"engine", end.given.as_slice())?;
    hex_line(text, b"output", end.own.as_slice())?;
    number_line(text, b"end", u64::from(status(end.outcome)))
}
