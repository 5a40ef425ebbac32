//! The objects in memory that a row describes.

use dp_outside::MapShelf;
use dp_polled::ListPolled;
use dp_rows::{Field, Memory, Row, unescaped};
use std::alloc::Global;

/// A text with escapes, as a text.
fn text_of(alloc: Global, text: &[u8]) -> Result<String, Memory> {
    let bytes = unescaped(alloc, text)?;
    String::from_utf8_lossy(alloc, bytes.as_slice())
}

/// The words of the command line: what stands between spaces.
pub(crate) fn words(alloc: Global, row: &Row<'_>) -> Result<Vec<String>, Memory> {
    let mut words = Vec::new(alloc);
    if let Some(field) = row.field(b"words") {
        for word in field.text.split(|byte| *byte == b' ') {
            words.push(text_of(alloc, word)?)?;
        }
    }
    Ok(words)
}

/// The files.
pub(crate) fn shelf(alloc: Global, row: &Row<'_>) -> Result<MapShelf, Memory> {
    let mut files = Vec::new(alloc);
    for field in row.fields.iter() {
        if field.name == b"file".as_slice() {
            let name = text_of(alloc, field.text)?;
            files.push((name, field.content(alloc)?))?;
        }
    }
    MapShelf::new(files, Vec::new(alloc))
}

/// What arrives: of each field `at N` its content, from the look of that number on.
pub(crate) fn polled(alloc: Global, row: &Row<'_>) -> Result<ListPolled, Memory> {
    let mut gives = Vec::new(alloc);
    let mut fails = Vec::new(alloc);
    for field in row.fields.iter() {
        if field.name == b"at".as_slice() {
            gives.push((field.number().unwrap_or(0), field.content(alloc)?))?;
        }
    }
    if let Some(number) = row.field(b"fails").and_then(Field::number) {
        fails.push(number)?;
    }
    ListPolled::new(gives, fails)
}
