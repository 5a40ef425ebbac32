//! Calls of event lists: the events that a text spells, or its first line that spells none.

use dp_events::{Act, Event, Events, ListError};
use dp_rows::{Memory, put_bytes};
use std::alloc::Global;

/// Puts a word, a link and bytes.
fn put_words(text: &mut String, word: &str, link: u32, bytes: &[u8]) -> Result<(), Memory> {
    write!(text, "{word} {link} ")?;
    put_bytes(text, bytes)?;
    text.push('\n')?;
    Ok(())
}

/// Puts an event.
fn put_event(text: &mut String, event: &Event) -> Result<(), Memory> {
    let link = event.link;
    match &event.act {
        Act::Ide(host) => put_words(text, "ide", link, host.as_slice()),
        Act::Engine(key) => put_words(text, "engine", link, key.as_slice()),
        Act::Give(bytes) => put_words(text, "give", link, bytes.as_slice()),
        Act::Move(count) => {
            writeln!(text, "move {link} {count}")?;
            Ok(())
        }
        Act::Close => {
            writeln!(text, "close {link}")?;
            Ok(())
        }
    }
}

/// The events of a list, each on a line.
fn listed(alloc: Global, events: &Events) -> Result<String, Memory> {
    let mut text = String::new(alloc);
    for event in events.events() {
        put_event(&mut text, event)?;
    }
    Ok(text)
}

/// The events that a text spells, or the line that spells none that may follow.
pub(crate) fn told_events(alloc: Global, input: &[u8]) -> Result<String, Memory> {
    match Events::read(alloc, input) {
        Ok(events) => listed(alloc, &events),
        Err(ListError::BadLine { line }) => format!(in alloc; "BadLine {line}"),
        Err(ListError::Memory) => Err(Memory),
    }
}
