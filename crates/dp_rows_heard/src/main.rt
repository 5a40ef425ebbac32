//! The rows of sessions that listen while their program runs. Serves each over arrivals in memory, and prints for each
//! file of rows how many there are and each that differs.
#![tactic(auto)]

mod objects;
mod reports;
mod sessions;

use dp_rows::{Memory, Report, RowFile, read_files, rows_of};
use sessions::differences_of;
use std::alloc::Global;
use std::io;

/// Serves the sessions of the rows of a file, and reports them.
fn put_file(alloc: Global, report: &mut Report, file: &RowFile) -> Result<(), Memory> {
    let lines = file.lines(alloc)?;
    let rows = rows_of(alloc, lines.as_slice())?;
    for row in rows.iter() {
        let differences = differences_of(alloc, row)?;
        report.put_row(row, &differences)?;
    }
    report.put_file(file.name.as_str())
}

/// Serves the sessions of all files of rows in the folder where it runs, and prints the report.
fn main(rt: HostRuntime) -> io::Result<()> {
    let mut report = Report::new(rt.alloc());
    for file in read_files(&rt)?.iter() {
        put_file(rt.alloc(), &mut report, file)?;
    }
    print!(rt; "{}", report.as_str())?;
    Ok(())
}
