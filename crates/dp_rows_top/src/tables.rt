//! The tables of a row: its call is made for each number, and what comes of each is compared.

use crate::calls::{Wanted, call_top, compare, wanted_of};
use crate::faults::{Faulty, Place};
use crate::fronts::{Speaker, written_by, written_to};
use crate::objects::Setting;
use dp_rows::{Differences, Field, Memory, Row, at_space, number_of};
use std::alloc::Global;
use std::sync::Wait;
use std::thread::Threads;

/// The most calls of a table.
const MOST_CALLS: u64 = 100_000;

/// The row of a table: what its call reads, and what speaks.
#[derive(Drop)]
struct Table<'a> {
    row: &'a Row<'a>,
    read: Vec<u8>,
    is_linked: bool,
    speaker: Speaker,
}

impl<'a> Table<'a> {
    /// The row of a table.
    fn of(alloc: Global, row: &'a Row<'a>) -> Result<Table<'a>, Memory> {
        let is_linked = row.field(b"link").is_some();
        let name = if is_linked {
            b"link".as_slice()
        } else {
            b"in".as_slice()
        };
        let speaker = match row.field(b"words") {
            Some(field) if field.text.starts_with(b"ide ") => Speaker::Script,
            Some(field) if field.text.starts_with(b"dap ") => Speaker::Gateway,
            _ => Speaker::Session,
        };
        Ok(Table {
            row,
            read: row.bytes(alloc, name)?,
            is_linked,
            speaker,
        })
    }

    /// What is written on the link, of what has to be written in all.
    fn written<'b>(&self, wanted: &'b mut Wanted) -> &'b mut Vec<u8> {
        if self.is_linked {
            &mut wanted.sent
        } else {
            &mut wanted.out
        }
    }

    /// What has to be written where so many bytes came.
    fn read_so_far(&self, alloc: Global, count: usize) -> Result<Wanted, Memory> {
        let mut wanted = wanted_of(alloc, self.row)?;
        let read = self.read.as_slice();
        let written = self.written(&mut wanted);
        let length = written_to(self.speaker, written.as_slice(), read, count).len();
        written.truncate(length);
        Ok(wanted)
    }

    /// What has to be written where so many puts held.
    fn put_so_far(&self, alloc: Global, count: usize) -> Result<Wanted, Memory> {
        let mut wanted = wanted_of(alloc, self.row)?;
        let written = self.written(&mut wanted);
        let length = written_by(self.speaker, written.as_slice(), count).len();
        written.truncate(length);
        Ok(wanted)
    }
}

/// Tells at which number of a table something differs.
fn tell_number(
    alloc: Global,
    table: &str,
    number: u64,
    differences: &mut Differences,
) -> Result<(), Memory> {
    let number = format!(in alloc; "{number}")?;
    differences.mistake(table, number.as_bytes())
}

/// What has to come of the call where so many bytes come and then the end: what the row says, or where some are missing
/// the status and the text of the field, if it has them.
fn wanted_for(
    alloc: Global,
    table: &Table<'_>,
    field: &Field<'_>,
    length: usize,
) -> Result<Wanted, Memory> {
    let mut wanted = table.read_so_far(alloc, length)?;
    if length < table.read.len() {
        if let Some(status) = field.number() {
            wanted.status = status;
            wanted.err = field.content(alloc)?;
        }
    }
    Ok(wanted)
}

/// Makes the call with each front of what comes, in one piece and byte by byte, up to the first that differs. How many
/// calls were made.
fn each_end<R: Wait + Sync + Threads + Send>(
    rt: &R,
    alloc: Global,
    table: &Table<'_>,
    field: &Field<'_>,
    differences: &mut Differences,
) -> Result<u64, Memory> {
    let mut calls = 0u64;
    for length in 0..=table.read.len() {
        let wanted = wanted_for(alloc, table, field, length)?;
        for by_bytes in [false, true] {
            let setting = Setting {
                length,
                by_bytes,
                faulty: Faulty::none(),
            };
            let found = call_top(rt, alloc, table.row, &wanted, &setting)?;
            compare(alloc, table.row, &wanted, &found, differences)?;
            calls = calls.saturating_add(1);
            if !differences.is_empty() {
                tell_number(alloc, "each_end", length as u64, differences)?;
                return Ok(calls);
            }
        }
    }
    Ok(calls)
}

/// What the field of a table of faults says: the object whose calls fail, the status and the text then, and how many
/// puts on the link held before, where the object is none of its ends.
#[derive(Drop)]
struct FaultTable {
    place: Place,
    status: u64,
    err: Vec<u8>,
    puts: usize,
}

/// What a field of a table of faults says. None where it names no object or no status.
fn fault_table(alloc: Global, field: &Field<'_>) -> Result<Option<FaultTable>, Memory> {
    let (name, rest) = at_space(field.text);
    let (status, puts) = at_space(rest);
    let err = field.content(alloc)?;
    let (Some(place), Some(status)) = (Place::of(name), number_of(status)) else {
        return Ok(None);
    };
    Ok(Some(FaultTable {
        place,
        status,
        err,
        puts: number_of(puts).unwrap_or(0) as usize,
    }))
}

/// What has to come where the call of this number fails.
fn wanted_at(
    alloc: Global,
    table: &Table<'_>,
    faults: &FaultTable,
    number: u64,
) -> Result<Wanted, Memory> {
    let before = (number as usize).saturating_sub(1);
    let mut wanted = match faults.place {
        Place::Input | Place::Link => table.read_so_far(alloc, before)?,
        Place::Sent => table.put_so_far(alloc, before)?,
        Place::Out if !table.is_linked => table.put_so_far(alloc, before)?,
        Place::Out | Place::Err | Place::Net => table.put_so_far(alloc, faults.puts)?,
    };
    if table.is_linked && matches!(faults.place, Place::Out | Place::Net) {
        wanted.out.clear();
    }
    wanted.status = faults.status;
    wanted.err = faults.err.clone()?;
    Ok(wanted)
}

/// Makes the call once for each number of a call of an object, which fails, up to the first number that has no call or
/// at which something differs. How many calls failed.
fn each_fault<R: Wait + Sync + Threads + Send>(
    rt: &R,
    alloc: Global,
    table: &Table<'_>,
    faults: &FaultTable,
    differences: &mut Differences,
) -> Result<u64, Memory> {
    for number in 1..MOST_CALLS {
        let place = faults.place;
        let setting = Setting {
            length: usize::MAX,
            by_bytes: matches!(place, Place::Input | Place::Link),
            faulty: Faulty { place, number },
        };
        let wanted = wanted_at(alloc, table, faults, number)?;
        let found = call_top(rt, alloc, table.row, &wanted, &setting)?;
        if !found.failed {
            let whole = wanted_of(alloc, table.row)?;
            compare(alloc, table.row, &whole, &found, differences)?;
            return Ok(number.saturating_sub(1));
        }
        compare(alloc, table.row, &wanted, &found, differences)?;
        if !differences.is_empty() {
            tell_number(alloc, "each_fault", number, differences)?;
            return Ok(number);
        }
    }
    differences.mistake("no end of faults", b"".as_slice())?;
    Ok(MOST_CALLS)
}

/// Makes the calls of a field that is a table. How many were made, or failed; none for any other field.
fn calls_of_field<R: Wait + Sync + Threads + Send>(
    rt: &R,
    alloc: Global,
    table: &Table<'_>,
    field: &Field<'_>,
    differences: &mut Differences,
) -> Result<u64, Memory> {
    if field.name == b"each_end".as_slice() {
        return each_end(rt, alloc, table, field, differences);
    }
    if field.name != b"each_fault".as_slice() {
        return Ok(0);
    }
    match fault_table(alloc, field)? {
        Some(faults) => each_fault(rt, alloc, table, &faults, differences),
        None => {
            differences.mistake("no object and status", field.text)?;
            Ok(0)
        }
    }
}

/// Puts a line with a table and how many calls it made.
fn put_calls(
    alloc: Global,
    field: &Field<'_>,
    calls: u64,
    counts: &mut String,
) -> Result<(), Memory> {
    let name = String::from_utf8_lossy(alloc, field.name)?;
    write!(counts, "    {name}")?;
    if !field.text.is_empty() {
        let text = String::from_utf8_lossy(alloc, field.text)?;
        write!(counts, " {text}")?;
    }
    writeln!(counts, ": {calls} calls")
}

/// Makes the calls of the tables of a row, and tells what differs. Puts the row's title, and a line for each table with
/// how many calls were made, or failed.
pub(crate) fn put_tables<R: Wait + Sync + Threads + Send>(
    rt: &R,
    alloc: Global,
    row: &Row<'_>,
    counts: &mut String,
    differences: &mut Differences,
) -> Result<(), Memory> {
    let title = String::from_utf8_lossy(alloc, row.title)?;
    writeln!(counts, "  {title}")?;
    let table = Table::of(alloc, row)?;
    for field in row.fields.iter() {
        let calls = calls_of_field(rt, alloc, &table, field, differences)?;
        if calls > 0 {
            put_calls(alloc, field, calls, counts)?;
        }
    }
    Ok(())
}
