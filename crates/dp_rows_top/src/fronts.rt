//! Fronts of what is written: how much of it answers to a front of what was read.

/// How many bytes stand in a packet's text before its root: the declaration.
const DECLARATION: usize = 44;

/// How many bytes are NUL.
pub(crate) fn nuls(bytes: &[u8]) -> usize {
    bytes.iter().filter(|byte| **byte == 0).count()
}

/// The bytes up to the NUL of this number and with it; all where there are fewer.
pub(crate) fn up_to_nul(bytes: &[u8], number: usize) -> &[u8] {
    let mut left = number;
    for (at, byte) in bytes.iter().enumerate() {
        if left == 0 {
            return bytes.get(..at).unwrap_or(bytes);
        }
        if *byte == 0 {
            left -= 1;
        }
    }
    bytes
}

/// Whether a text is that of a response.
fn is_response(text: &[u8]) -> bool {
    match text.get(DECLARATION..) {
        Some(root) => root.starts_with(b"<response"),
        None => false,
    }
}

/// How many of these packets stand up to the response to the command of this number, from 1: the first packet alone for
/// 0, and all where there is no such response.
fn packets_up_to(packets: &[u8], commands: usize) -> usize {
    if commands == 0 {
        return 1;
    }
    let mut responses = 0usize;
    for (at, piece) in packets.split(|byte| *byte == 0).enumerate() {
        if at % 2 == 1 && is_response(piece) {
            responses = responses.saturating_add(1);
            if responses == commands {
                return (at / 2).saturating_add(1);
            }
        }
    }
    usize::MAX
}

/// These packets up to the response to the last whole command of what was read.
fn answers_to<'a>(packets: &'a [u8], read: &[u8]) -> &'a [u8] {
    up_to_nul(
        packets,
        packets_up_to(packets, nuls(read)).saturating_mul(2),
    )
}

/// Whether a message with its head ends before this place, or all of them do: the next one begins there.
fn ends_message(messages: &[u8], at: usize) -> bool {
    match messages.get(at..) {
        Some(rest) => rest.is_empty() || rest.starts_with(b"Content-Length: "),
        None => false,
    }
}

/// How many of these messages stand within so many bytes.
fn messages_within(messages: &[u8], length: usize) -> usize {
    let mut whole = 0usize;
    for at in 1..=messages.len() {
        if at <= length && ends_message(messages, at) {
            whole = whole.saturating_add(1);
        }
    }
    whole
}

/// So many of these messages; all where there are fewer.
fn first_messages(messages: &[u8], number: usize) -> &[u8] {
    let mut end = 0usize;
    let mut left = number;
    for at in 1..=messages.len() {
        if left > 0 && ends_message(messages, at) {
            end = at;
            left = left.saturating_sub(1);
        }
    }
    messages.get(..end).unwrap_or(messages)
}

/// The messages before the response behind so many others: each event goes with the response before it.
fn messages_up_to(messages: &[u8], requests: usize) -> &[u8] {
    let mut start = 0usize;
    let mut responses = 0usize;
    for at in 1..=messages.len() {
        if ends_message(messages, at) {
            let message = messages.get(start..at).unwrap_or(messages);
            if message.ends_with(b"\"type\":\"response\"}") {
                if responses == requests {
                    return messages.get(..start).unwrap_or(messages);
                }
                responses = responses.saturating_add(1);
            }
            start = at;
        }
    }
    messages
}

/// What speaks on the link: a session, a script, or a gateway.
#[derive(Clone, Copy, Debug, PartialEq, Eq)]
pub(crate) enum Speaker {
    Session,
    Script,
    Gateway,
}

/// What was written where so many bytes of these were read: by a session the packets up to the response to the last
/// whole command, by a script as many commands as packets came whole, and by a gateway the messages up to those behind
/// the response to the last whole request.
pub(crate) fn written_to<'a>(
    speaker: Speaker,
    written: &'a [u8],
    read: &[u8],
    count: usize,
) -> &'a [u8] {
    let front = read.get(..count).unwrap_or(read);
    match speaker {
        Speaker::Session => answers_to(written, front),
        Speaker::Script => up_to_nul(written, nuls(front) / 2),
        Speaker::Gateway => messages_up_to(written, messages_within(read, count)),
    }
}

/// What was written by so many puts: a packet by each of a session, a command by each of a script, and a message by
/// each of a gateway.
pub(crate) fn written_by(speaker: Speaker, written: &[u8], puts: usize) -> &[u8] {
    match speaker {
        Speaker::Session => up_to_nul(written, puts.saturating_mul(2)),
        Speaker::Script => up_to_nul(written, puts),
        Speaker::Gateway => first_messages(written, puts),
    }
}
