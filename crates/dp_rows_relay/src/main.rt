//! The rows of sessions of a relay: serves an engine over links in memory, as a row says and once for each call that
//! fails, and prints for each file of rows how many there are and each that differs.
#![tactic(auto)]

mod calls;
mod objects;
mod rows;
mod served;
mod words;

use dp_rows::{Memory, Report, RowFile, read_files, rows_of};
use rows::differences_of;
use std::alloc::Global;
use std::io;
use std::sync::Wait;
use std::thread::Threads;

/// Makes the calls of the rows of a file, and reports them.
fn put_file<R: Threads + Wait + Sync + Send>(
    rt: &R,
    alloc: Global,
    report: &mut Report,
    file: &RowFile,
) -> Result<(), Memory> {
    let lines = file.lines(alloc)?;
    let rows = rows_of(alloc, lines.as_slice())?;
    for row in rows.iter() {
        let differences = differences_of(rt, alloc, row)?;
        report.put_row(row, &differences)?;
    }
    report.put_file(file.name.as_str())
}

/// Makes the calls of all files of rows in the folder where it runs, and prints the report.
fn main(rt: HostRuntime) -> io::Result<()> {
    let mut report = Report::new(rt.alloc());
    for file in read_files(&rt)?.iter() {
        put_file(&rt, rt.alloc(), &mut report, file)?;
    }
    print!(rt; "{}", report.as_str())?;
    Ok(())
}
