//! The fields of a row.

use crate::Memory;
use crate::escapes::unescaped;
use crate::lines::{is_content, put_lines};
use std::alloc::Global;

/// A field: its name, what stands behind it on its line, and the lines of its content.
#[derive(Clone, Copy, Drop)]
pub struct Field<'a> {
    pub name: &'a [u8],
    pub text: &'a [u8],
    pub lines: &'a [&'a [u8]],
}

impl Field<'_> {
    /// The bytes that the field stands for: those behind its name, and those of the lines of its content.
    pub fn bytes(&self, alloc: Global) -> Result<Vec<u8>, Memory> {
        let mut bytes = unescaped(alloc, self.text)?;
        put_lines(&mut bytes, self.lines)?;
        Ok(bytes)
    }

    /// The bytes of the lines of its content.
    pub fn content(&self, alloc: Global) -> Result<Vec<u8>, Memory> {
        let mut bytes = Vec::new(alloc);
        put_lines(&mut bytes, self.lines)?;
        Ok(bytes)
    }

    /// The number behind the name, if one stands there.
    pub fn number(&self) -> Option<u64> {
        number_of(self.text)
    }
}

/// The number that these digits stand for.
pub fn number_of(digits: &[u8]) -> Option<u64> {
    match str::from_utf8(digits) {
        Ok(digits) => digits.parse::<u64>().ok(),
        Err(_) => None,
    }
}

/// Whether a line is a field: its name begins with a small letter.
fn is_field(line: &[u8]) -> bool {
    match line.first() {
        Some(byte) => byte.is_ascii_lowercase(),
        None => false,
    }
}

/// What stands before the first space of a line, and what stands behind it.
pub fn at_space(line: &[u8]) -> (&[u8], &[u8]) {
    let count = line.iter().take_while(|byte| **byte != b' ').count();
    match line.split_at_checked(count) {
        Some((front, back)) => (front, back.strip_prefix(b" ").unwrap_or(back)),
        None => (line, &[]),
    }
}

/// The lines up to the next field.
fn content_of<'a>(lines: &'a [&'a [u8]]) -> &'a [&'a [u8]] {
    let count = lines.iter().take_while(|line| !is_field(line)).count();
    lines.get(..count).unwrap_or(lines)
}

/// Puts the fields that these lines hold.
pub(crate) fn fields_of<'a>(
    fields: &mut Vec<Field<'a>>,
    lines: &'a [&'a [u8]],
) -> Result<(), Memory> {
    for (at, line) in lines.iter().enumerate() {
        if is_field(line) {
            let (name, text) = at_space(line);
            let content = match lines.get(at + 1..) {
                Some(behind) => content_of(behind),
                None => &[],
            };
            fields.push(Field {
                name,
                text,
                lines: content,
            })?;
        }
    }
    Ok(())
}

/// The first of these lines that is neither a field nor the content of one.
pub(crate) fn first_mistake<'a>(lines: &'a [&'a [u8]]) -> Option<&'a [u8]> {
    match lines.first() {
        Some(first) if !is_field(first) => Some(*first),
        _ => lines
            .iter()
            .find(|line| !is_field(line) && !is_content(line))
            .copied(),
    }
}
