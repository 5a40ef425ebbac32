//! The report of a run over files of rows.

use crate::Memory;
use crate::differences::Differences;
use crate::row::Row;
use std::alloc::Global;

/// For each file how many rows there are, and before it each row that differs, as lines.
#[derive(Drop)]
pub struct Report {
    alloc: Global,
    lines: String,
    rows: usize,
    others: usize,
}

impl Report {
    /// The report of no rows.
    pub fn new(alloc: Global) -> Report {
        Report {
            alloc,
            lines: String::new(alloc),
            rows: 0,
            others: 0,
        }
    }

    /// The lines of the report.
    pub fn as_str(&self) -> &str {
        self.lines.as_str()
    }

    /// Tells what differs at a row, or that it is not understood.
    fn put_other(&mut self, row: &Row<'_>, differences: &Differences) -> Result<(), Memory> {
        self.others = self.others.saturating_add(1);
        let title = String::from_utf8_lossy(self.alloc, row.title)?;
        let line = row.line;
        writeln!(self.lines, "  line {line}: {title}")?;
        self.lines.push_str(differences.as_str())
    }

    /// Counts a row, and tells what differs there.
    pub fn put_row(&mut self, row: &Row<'_>, found: &Differences) -> Result<(), Memory> {
        self.rows = self.rows.saturating_add(1);
        match row.mistake {
            Some(line) => {
                let what = "no field and no content";
                let mistake = Differences::of_mistake(self.alloc, what, line)?;
                self.put_other(row, &mistake)
            }
            None if found.is_empty() => Ok(()),
            None => self.put_other(row, found),
        }
    }

    /// Ends a file: tells how many rows it has, and how many of them differ.
    pub fn put_file(&mut self, name: &str) -> Result<(), Memory> {
        let rows = self.rows;
        let others = self.others;
        match others {
            0 => writeln!(self.lines, "{name}: {rows} rows, all equal")?,
            _ => writeln!(self.lines, "{name}: {rows} rows, {others} differ")?,
        }
        self.rows = 0;
        self.others = 0;
        Ok(())
    }
}
