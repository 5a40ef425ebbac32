//! The rows of a file.

use crate::Memory;
use crate::fields::{Field, fields_of, first_mistake};
use std::alloc::Global;

/// A row: where it stands, its title, and its fields, of which those that it shares with other rows come last.
#[derive(Drop)]
pub struct Row<'a> {
    /// The number of the line of its title, from 1.
    pub line: usize,
    pub title: &'a [u8],
    pub fields: Vec<Field<'a>>,
    /// The first line that is neither a field nor the content of one.
    pub mistake: Option<&'a [u8]>,
}

impl<'a> Row<'a> {
    /// The first field of this name.
    pub fn field(&self, name: &[u8]) -> Option<&Field<'a>> {
        self.fields.iter().find(|field| field.name == name)
    }

    /// The bytes that the first field of this name stands for; none where there is no such field.
    pub fn bytes(&self, alloc: Global, name: &[u8]) -> Result<Vec<u8>, Memory> {
        match self.field(name) {
            Some(field) => field.bytes(alloc),
            None => Ok(Vec::new(alloc)),
        }
    }

    /// The number in the first field of this name, or the usual one where there is none.
    pub fn number(&self, name: &[u8], usual: u64) -> u64 {
        match self.field(name) {
            Some(field) => field.number().unwrap_or(usual),
            None => usual,
        }
    }
}

/// A block without the comments at its head, and how many these are.
fn without_comments<'a>(block: &'a [&'a [u8]]) -> (usize, &'a [&'a [u8]]) {
    let comments = block
        .iter()
        .take_while(|line| line.starts_with(b"#"))
        .count();
    match block.split_at_checked(comments) {
        Some((_, rest)) => (comments, rest),
        None => (0, block),
    }
}

/// The row with this title and these lines, its own and those that it shares.
fn row_of<'a>(
    alloc: Global,
    line: usize,
    title: &'a [u8],
    own: &'a [&'a [u8]],
    shared: &'a [&'a [u8]],
) -> Result<Row<'a>, Memory> {
    let mut fields = Vec::new(alloc);
    fields_of(&mut fields, own)?;
    fields_of(&mut fields, shared)?;
    Ok(Row {
        line,
        title,
        fields,
        mistake: first_mistake(own),
    })
}

/// The title of a block and its other lines, if it has a title.
fn titled<'a>(block: &'a [&'a [u8]]) -> Option<(&'a [u8], &'a [&'a [u8]])> {
    let (first, own) = block.split_first()?;
    let title = first.strip_prefix(b"= ")?;
    Some((title, own))
}

/// The lines that rows share behind a block, where they shared these before it.
fn shared_behind<'a>(shared: &'a [&'a [u8]], block: &'a [&'a [u8]]) -> &'a [&'a [u8]] {
    if block.is_empty() || titled(block).is_some() {
        shared
    } else {
        block
    }
}

/// The rows that these lines hold.
pub fn rows_of<'a>(alloc: Global, lines: &'a [&'a [u8]]) -> Result<Vec<Row<'a>>, Memory> {
    let mut rows = Vec::new(alloc);
    let mut shared: &'a [&'a [u8]] = &[];
    let mut before = 1usize;
    for block in lines.split(|line| line.is_empty()) {
        let (comments, rest) = without_comments(block);
        shared = shared_behind(shared, rest);
        if let Some((title, own)) = titled(rest) {
            let line = before.saturating_add(comments);
            rows.push(row_of(alloc, line, title, own, shared)?)?;
        }
        before = before.saturating_add(block.len()).saturating_add(1);
    }
    Ok(rows)
}
