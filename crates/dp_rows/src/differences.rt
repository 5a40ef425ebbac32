//! What a row wanted and what was found, where the two differ.

use crate::Memory;
use crate::escapes::put_window;
use crate::row::Row;
use std::alloc::Global;

/// How many bytes a report shows, and how many of them stand before the first that differs.
const SHOWN: usize = 100;

const BEFORE: usize = 30;

/// The differences of a row, as lines of a report; none where it holds.
#[derive(Drop)]
pub struct Differences {
    lines: String,
}

/// The place of the first byte in which two texts differ.
fn first_other(wanted: &[u8], found: &[u8]) -> usize {
    wanted
        .iter()
        .zip(found.iter())
        .take_while(|(a, b)| a == b)
        .count()
}

impl Differences {
    /// No differences.
    pub fn new(alloc: Global) -> Differences {
        Differences {
            lines: String::new(alloc),
        }
    }

    /// The differences between what the field `gives` of a row has and what was found.
    pub fn of_given(alloc: Global, row: &Row<'_>, found: &str) -> Result<Differences, Memory> {
        let mut differences = Differences::new(alloc);
        let wanted = row.bytes(alloc, b"gives")?;
        differences.compare("gives", wanted.as_slice(), found.as_bytes())?;
        Ok(differences)
    }

    /// A row that is not understood, and what of it is not.
    pub fn of_mistake(alloc: Global, what: &str, bytes: &[u8]) -> Result<Differences, Memory> {
        let mut differences = Differences::new(alloc);
        differences.mistake(what, bytes)?;
        Ok(differences)
    }

    /// Whether the row holds.
    pub fn is_empty(&self) -> bool {
        self.lines.is_empty()
    }

    /// The lines of the report.
    pub fn as_str(&self) -> &str {
        self.lines.as_str()
    }

    /// Tells where something differs, if it does.
    pub fn compare(&mut self, what: &str, wanted: &[u8], found: &[u8]) -> Result<(), Memory> {
        if wanted != found {
            let at = first_other(wanted, found);
            writeln!(self.lines, "    {what}, at byte {at}")?;
            self.show("wanted", wanted, at)?;
            self.show("found ", found, at)?;
        }
        Ok(())
    }

    /// Puts a line with a word and the bytes, or with those around a place where they are too many to show.
    fn show(&mut self, word: &str, bytes: &[u8], at: usize) -> Result<(), Memory> {
        write!(self.lines, "        {word} \"")?;
        let from = if bytes.len() > SHOWN {
            at.saturating_sub(BEFORE)
        } else {
            0
        };
        put_window(&mut self.lines, bytes, from, SHOWN)?;
        self.lines.push_str("\"\n")?;
        Ok(())
    }

    /// Tells that a row is not understood, and what of it is not.
    pub fn mistake(&mut self, what: &str, bytes: &[u8]) -> Result<(), Memory> {
        write!(self.lines, "    {what}: ")?;
        put_window(&mut self.lines, bytes, 0, SHOWN)?;
        self.lines.push('\n')?;
        Ok(())
    }
}
