//! The rows of sessions without an engine: where breakpoints stop, and what is shown of the states of programs. Prints
//! for each file of rows how many there are and each that differs.
#![tactic(auto)]

mod answers;
mod breakpoints;
mod moments;
mod session;
mod views;
mod writes;

use dp_rows::{Differences, Memory, Report, Row, RowFile, read_files, rows_of};
use session::told_session;
use std::alloc::Global;
use std::io;

/// Makes the session of a row, and tells what differs.
fn differences_of(alloc: Global, row: &Row<'_>) -> Result<Differences, Memory> {
    let found = told_session(alloc, row)?;
    Differences::of_given(alloc, row, found.as_str())
}

/// Makes the sessions of the rows of a file, and reports them.
fn put_file(alloc: Global, report: &mut Report, file: &RowFile) -> Result<(), Memory> {
    let lines = file.lines(alloc)?;
    let rows = rows_of(alloc, lines.as_slice())?;
    for row in rows.iter() {
        let differences = differences_of(alloc, row)?;
        report.put_row(row, &differences)?;
    }
    report.put_file(file.name.as_str())
}

/// Makes the sessions of all files of rows in the folder where it runs, and prints the report.
fn main(rt: HostRuntime) -> io::Result<()> {
    let mut report = Report::new(rt.alloc());
    for file in read_files(&rt)?.iter() {
        put_file(rt.alloc(), &mut report, file)?;
    }
    print!(rt; "{}", report.as_str())?;
    Ok(())
}
