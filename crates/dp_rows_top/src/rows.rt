//! The calls of a row: as it stands, byte by byte where it says so, and those of its tables.

use crate::calls::{call_top, compare, compare_count, wanted_of};
use crate::objects::Setting;
use crate::tables::put_tables;
use dp_rows::{Differences, Memory, Row};
use std::alloc::Global;
use std::sync::Wait;
use std::thread::Threads;

/// The names of the fields that a row has.
const NAMES: [&[u8]; 20] = [
    b"words",
    b"file",
    b"in",
    b"cut",
    b"out",
    b"err",
    b"sent",
    b"status",
    b"any",
    b"counts",
    b"shelf_fails",
    b"input_fails",
    b"out_fails",
    b"err_fails",
    b"link",
    b"link_fails",
    b"sent_fails",
    b"net_fails",
    b"each_end",
    b"each_fault",
];

/// Tells which fields are not known.
fn unknown(row: &Row<'_>, differences: &mut Differences) -> Result<(), Memory> {
    for field in row.fields.iter() {
        if !NAMES.contains(&field.name) {
            differences.mistake("unknown field", field.name)?;
        }
    }
    Ok(())
}

/// Makes the call of a row, and tells what differs.
fn call_once<R: Wait + Sync + Threads + Send>(
    rt: &R,
    alloc: Global,
    row: &Row<'_>,
    by_bytes: bool,
    differences: &mut Differences,
) -> Result<(), Memory> {
    let wanted = wanted_of(alloc, row)?;
    let found = call_top(rt, alloc, row, &wanted, &Setting::whole(by_bytes))?;
    compare(alloc, row, &wanted, &found, differences)?;
    compare_count(alloc, row, &found, differences)
}

/// Makes the calls of a row, and tells what differs. Puts a line for each of its tables with how many calls were made,
/// or failed.
pub(crate) fn differences_of<R: Wait + Sync + Threads + Send>(
    rt: &R,
    alloc: Global,
    row: &Row<'_>,
    counts: &mut String,
) -> Result<Differences, Memory> {
    let mut differences = Differences::new(alloc);
    unknown(row, &mut differences)?;
    call_once(rt, alloc, row, false, &mut differences)?;
    if row.field(b"cut").is_some() {
        call_once(rt, alloc, row, true, &mut differences)?;
    }
    if row.field(b"each_end").is_some() || row.field(b"each_fault").is_some() {
        put_tables(rt, alloc, row, counts, &mut differences)?;
    }
    Ok(differences)
}
