//! The rows of calls of single crates, of texts, of the parser and of the proxy: makes each call, and prints for each
//! file of rows how many there are and each that differs.
#![tactic(auto)]

mod calls;
mod commands;
mod frames;
mod lanes;
mod language;
mod language_calls;
mod lists;
mod packets;
mod proxy_calls;
mod registrations;
mod registries;
mod requests;
mod settings;
mod steps;
mod text_calls;

use calls::differences_of;
use dp_rows::{Memory, Report, RowFile, read_files, rows_of};
use std::alloc::Global;
use std::io;

/// Makes the calls of the rows of a file, and reports them.
fn put_file(alloc: Global, report: &mut Report, file: &RowFile) -> Result<(), Memory> {
    let lines = file.lines(alloc)?;
    let rows = rows_of(alloc, lines.as_slice())?;
    for row in rows.iter() {
        let differences = differences_of(alloc, row)?;
        report.put_row(row, &differences)?;
    }
    report.put_file(file.name.as_str())
}

/// Makes the calls of all files of rows in the folder where it runs, and prints the report.
fn main(rt: HostRuntime) -> io::Result<()> {
    let mut report = Report::new(rt.alloc());
    for file in read_files(&rt)?.iter() {
        put_file(rt.alloc(), &mut report, file)?;
    }
    print!(rt; "{}", report.as_str())?;
    Ok(())
}
