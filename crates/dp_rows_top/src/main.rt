//! The rows of the top call: makes each call over objects in memory, and prints for each file of rows how many there
//! are and each that differs, and for each table how many calls it made.
#![tactic(auto)]

mod calls;
mod faults;
mod fronts;
mod gates;
mod links;
mod nets;
mod objects;
mod rows;
mod tables;

use dp_rows::{Memory, Report, RowFile, read_files, rows_of};
use rows::differences_of;
use std::alloc::Global;
use std::fs::Files;
use std::sync::Wait;
use std::thread::{Builder, Threads};
use std::{io, thread};

/// How large the stack is on which the rows run. Values of the language may nest deep.
const STACK_SIZE: usize = 1 << 30;

/// Makes the calls of the rows of a file, and reports them.
fn put_file<R: Wait + Sync + Threads + Send>(
    rt: &R,
    alloc: Global,
    report: &mut Report,
    counts: &mut String,
    file: &RowFile,
) -> Result<(), Memory> {
    let lines = file.lines(alloc)?;
    let rows = rows_of(alloc, lines.as_slice())?;
    for row in rows.iter() {
        let differences = differences_of(rt, alloc, row, counts)?;
        report.put_row(row, &differences)?;
    }
    report.put_file(file.name.as_str())
}

/// Makes the calls of all rows, and prints the report, and how many calls the tables made.
fn run<R: Threads + Wait + Sync + Send + AllocGlobal + Files + Print + Clone + Drop>(
    rt: &R,
) -> io::Result<()> {
    let alloc: Global = rt.alloc();
    let mut report = Report::new(alloc);
    let mut counts = String::new(alloc);
    for file in read_files(rt)?.iter() {
        put_file(rt, alloc, &mut report, &mut counts, file)?;
    }
    print!(rt; "{}", report.as_str())?;
    print!(rt; "{}", counts.as_str())?;
    Ok(())
}

/// The rows run in a thread of its own with a large stack. Where the system gives no such thread, they run on the stack
/// that there is.
fn main(rt: HostRuntime) -> io::Result<()> {
    thread::scope(thread::scope_env(), &rt, |scope| {
        match Builder::new()
            .stack_size(STACK_SIZE)
            .spawn_scoped(scope, || run(&rt))
        {
            Ok(thread) => thread.join(&rt),
            Err(_) => run(&rt),
        }
    })
}
