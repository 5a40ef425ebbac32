//! The calls of a row: as it stands, and with each call of an object that fails.

use crate::calls::{Calls, Faulty};
use crate::objects::{Plan, objects_of};
use crate::served::serve;
use crate::words::words_of;
use dp_rows::{Differences, Field, Memory, Row};
use std::alloc::Global;
use std::sync::Wait;
use std::thread::Threads;

/// The names of the fields that a row has.
const NAMES: [&[u8]; 5] = [b"engine", b"ide", b"piece", b"gives", b"fails"];

/// Serves the engine of a plan: what comes of it, in words.
fn answered<R: Threads + Wait + Sync + Send>(
    rt: &R,
    alloc: Global,
    plan: &Plan<'_>,
) -> Result<String, Memory> {
    let objects = objects_of(alloc, plan)?;
    let served = serve(rt, alloc, objects)?;
    words_of(alloc, plan, &served)
}

/// Serves the engine once for each of these calls, which fails, up to the first at which something else comes of it
/// than these words.
fn each_fails<R: Threads + Wait + Sync + Send>(
    rt: &R,
    alloc: Global,
    plan: Plan<'_>,
    calls: Calls,
    wanted: &[u8],
    differences: &mut Differences,
) -> Result<(), Memory> {
    let place = calls.place;
    for number in calls.first..=calls.last {
        let faulty = Faulty { place, number };
        let found = answered(rt, alloc, &Plan { faulty, ..plan })?;
        if found.as_bytes() != wanted {
            let number = format!(in alloc; "{number}")?;
            differences.mistake("fails at", number.as_bytes())?;
            return differences.compare("fails", wanted, found.as_bytes());
        }
    }
    Ok(())
}

/// Makes the calls of a field, if it has any.
fn put_field<R: Threads + Wait + Sync + Send>(
    rt: &R,
    alloc: Global,
    plan: Plan<'_>,
    field: &Field<'_>,
    differences: &mut Differences,
) -> Result<(), Memory> {
    if !NAMES.contains(&field.name) {
        return differences.mistake("unknown field", field.name);
    }
    if field.name != b"fails".as_slice() {
        return Ok(());
    }
    let Some(calls) = Calls::of(field.text) else {
        return differences.mistake("no object and numbers", field.text);
    };
    let wanted = field.content(alloc)?;
    each_fails(rt, alloc, plan, calls, wanted.as_slice(), differences)
}

/// Makes the calls of a row, and tells what differs.
pub(crate) fn differences_of<R: Threads + Wait + Sync + Send>(
    rt: &R,
    alloc: Global,
    row: &Row<'_>,
) -> Result<Differences, Memory> {
    let engine = row.bytes(alloc, b"engine")?;
    let ide = row.bytes(alloc, b"ide")?;
    let plan = Plan {
        engine: engine.as_slice(),
        ide: ide.as_slice(),
        piece: row.number(b"piece", 1) as usize,
        faulty: Faulty::none(),
    };
    let found = answered(rt, alloc, &plan)?;
    let mut differences = Differences::of_given(alloc, row, found.as_str())?;
    for field in row.fields.iter() {
        put_field(rt, alloc, plan, field, &mut differences)?;
    }
    Ok(differences)
}
