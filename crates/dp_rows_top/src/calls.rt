//! The call of the top call that a row describes, what came of it, and what had to come.

use crate::faults::Place;
use crate::nets::OneNet;
use crate::objects::{Setting, input, net, output, shelf, words};
use dp_outside::{ByteSink, ByteSource, MapShelf, NoSpawner};
use dp_rows::{Differences, Memory, Row};
use dp_top::top;
use std::alloc::Global;
use std::sync::Wait;
use std::thread::Threads;

/// What has to come of a call. `sent` is what is put on its link.
#[derive(Drop)]
pub(crate) struct Wanted {
    pub(crate) status: u64,
    pub(crate) out: Vec<u8>,
    pub(crate) err: Vec<u8>,
    pub(crate) sent: Vec<u8>,
}

/// What came of it, and whether anything failed.
#[derive(Drop)]
pub(crate) struct Found {
    status: u8,
    out: ByteSink,
    err: ByteSink,
    net: OneNet,
    pub(crate) failed: bool,
}

/// Makes the call over these objects.
fn call_over<R: Wait + Sync + Threads + Send>(
    rt: &R,
    alloc: Global,
    words: &[String],
    shelf: &mut MapShelf,
    input: &mut ByteSource,
    out: &mut ByteSink,
    err: &mut ByteSink,
    net: &mut OneNet,
) -> u8 {
    let mut spawner: NoSpawner<R> = NoSpawner::new();
    top(rt, alloc, words, shelf, input, out, err, net, &mut spawner)
}

/// Makes the call of a row.
pub(crate) fn call_top<R: Wait + Sync + Threads + Send>(
    rt: &R,
    alloc: Global,
    row: &Row<'_>,
    wanted: &Wanted,
    setting: &Setting,
) -> Result<Found, Memory> {
    let words = words(alloc, row)?;
    let mut shelf = shelf(alloc, row)?;
    let mut input = input(alloc, row, setting)?;
    let mut out = output(alloc, row, wanted.out.as_slice(), Place::Out, setting)?;
    let mut err = output(alloc, row, wanted.err.as_slice(), Place::Err, setting)?;
    let mut net = net(alloc, row, setting)?;
    let status = call_over(
        rt,
        alloc,
        words.as_slice(),
        &mut shelf,
        &mut input,
        &mut out,
        &mut err,
        &mut net,
    );
    let kept = input.faults() == 0 && out.faults() == 0 && err.faults() == 0;
    let failed = !kept || net.has_failed();
    Ok(Found {
        status,
        out,
        err,
        net,
        failed,
    })
}

/// What has to come of the call of a row where all comes and nothing fails.
pub(crate) fn wanted_of(alloc: Global, row: &Row<'_>) -> Result<Wanted, Memory> {
    Ok(Wanted {
        status: row.number(b"status", 0),
        out: row.bytes(alloc, b"out")?,
        err: row.bytes(alloc, b"err")?,
        sent: row.bytes(alloc, b"sent")?,
    })
}

/// Whether a row leaves this open.
fn is_open(row: &Row<'_>, name: &[u8]) -> bool {
    match row.field(b"any") {
        Some(field) => field
            .text
            .split(|byte| *byte == b' ')
            .any(|word| word == name),
        None => false,
    }
}

/// Tells whether another status came of a call than had to come.
fn compare_status(
    alloc: Global,
    wanted: u64,
    found: u8,
    differences: &mut Differences,
) -> Result<(), Memory> {
    let status = format!(in alloc; "{wanted}")?;
    let other = format!(in alloc; "{found}")?;
    differences.compare("status", status.as_bytes(), other.as_bytes())
}

/// Tells where what came of a call differs from what had to come.
pub(crate) fn compare(
    alloc: Global,
    row: &Row<'_>,
    wanted: &Wanted,
    found: &Found,
    differences: &mut Differences,
) -> Result<(), Memory> {
    if !is_open(row, b"status") {
        compare_status(alloc, wanted.status, found.status, differences)?;
    }
    if !is_open(row, b"out") {
        differences.compare("out", wanted.out.as_slice(), found.out.taken())?;
    }
    if !is_open(row, b"err") {
        differences.compare("err", wanted.err.as_slice(), found.err.taken())?;
    }
    if row.field(b"sent").is_some() {
        differences.compare("sent", wanted.sent.as_slice(), found.net.sent())?;
    }
    Ok(())
}

/// How often a text stands in some bytes.
fn times(bytes: &[u8], text: &[u8]) -> usize {
    let mut count = 0usize;
    for at in 0..bytes.len() {
        if let Some(rest) = bytes.get(at..) {
            if rest.starts_with(text) {
                count = count.saturating_add(1);
            }
        }
    }
    count
}

/// Tells whether the text of the field `counts` stands in the output another number of times than it says.
pub(crate) fn compare_count(
    alloc: Global,
    row: &Row<'_>,
    found: &Found,
    differences: &mut Differences,
) -> Result<(), Memory> {
    if let Some(field) = row.field(b"counts") {
        let text = field.content(alloc)?;
        let count = times(found.out.taken(), text.as_slice());
        let other = format!(in alloc; "{count}")?;
        differences.compare("counts", field.text, other.as_bytes())?;
    }
    Ok(())
}
