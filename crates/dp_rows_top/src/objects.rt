//! The objects in memory that a row describes.

use crate::faults::{Faulty, Place, numbers};
use crate::links::{LinkPlan, cuts_of};
use crate::nets::OneNet;
use dp_outside::{ByteSink, ByteSource, MapShelf};
use dp_rows::{Memory, Row, unescaped};
use std::alloc::Global;

/// How many bytes more than what is wanted an output takes.
const MORE_ROOM: usize = 1 << 19;

/// How a call is made: how many bytes come, whether byte by byte, and which call of an object fails beside those that
/// the row says.
#[derive(Clone, Copy, Debug)]
pub(crate) struct Setting {
    pub(crate) length: usize,
    pub(crate) by_bytes: bool,
    pub(crate) faulty: Faulty,
}

impl Setting {
    /// All bytes come, and no call fails but those that the row says.
    pub(crate) fn whole(by_bytes: bool) -> Setting {
        Setting {
            length: usize::MAX,
            by_bytes,
            faulty: Faulty::none(),
        }
    }
}

/// A text with escapes, as a text.
fn text_of(alloc: Global, text: &[u8]) -> Result<String, Memory> {
    let bytes = unescaped(alloc, text)?;
    String::from_utf8_lossy(alloc, bytes.as_slice())
}

/// The words of the command line: what stands between spaces.
pub(crate) fn words(alloc: Global, row: &Row<'_>) -> Result<Vec<String>, Memory> {
    let mut words = Vec::new(alloc);
    if let Some(field) = row.field(b"words") {
        if !field.text.is_empty() {
            for word in field.text.split(|byte| *byte == b' ') {
                words.push(text_of(alloc, word)?)?;
            }
        }
    }
    Ok(words)
}

/// The files.
pub(crate) fn shelf(alloc: Global, row: &Row<'_>) -> Result<MapShelf, Memory> {
    let mut files = Vec::new(alloc);
    for field in row.fields.iter() {
        if field.name == b"file".as_slice() {
            let name = text_of(alloc, field.text)?;
            files.push((name, field.content(alloc)?))?;
        }
    }
    MapShelf::new(files, numbers(alloc, row, b"shelf_fails")?)
}

/// The first bytes of the field of this name, so many as come.
fn front(alloc: Global, row: &Row<'_>, name: &[u8], setting: &Setting) -> Result<Vec<u8>, Memory> {
    let mut bytes = row.bytes(alloc, name)?;
    bytes.truncate(setting.length);
    Ok(bytes)
}

/// The input.
pub(crate) fn input(alloc: Global, row: &Row<'_>, setting: &Setting) -> Result<ByteSource, Memory> {
    let bytes = front(alloc, row, b"in", setting)?;
    let cuts = cuts_of(alloc, bytes.len(), setting.by_bytes)?;
    ByteSource::new(bytes, cuts, setting.faulty.calls(alloc, row, Place::Input)?)
}

/// An output with room for more than what is wanted of it.
pub(crate) fn output(
    alloc: Global,
    row: &Row<'_>,
    wanted: &[u8],
    place: Place,
    setting: &Setting,
) -> Result<ByteSink, Memory> {
    let room = wanted.len().saturating_add(MORE_ROOM);
    ByteSink::new(alloc, room, setting.faulty.calls(alloc, row, place)?)
}

/// The network, with the link of the row, if it has one.
pub(crate) fn net(alloc: Global, row: &Row<'_>, setting: &Setting) -> Result<OneNet, Memory> {
    let link = if row.field(b"link").is_some() {
        Some(LinkPlan {
            bytes: front(alloc, row, b"link", setting)?,
            by_bytes: setting.by_bytes,
            takes: setting.faulty.calls(alloc, row, Place::Link)?,
            puts: setting.faulty.calls(alloc, row, Place::Sent)?,
        })
    } else {
        None
    };
    let fails = setting.faulty.calls(alloc, row, Place::Net)?;
    Ok(OneNet::new(alloc, link, fails))
}
