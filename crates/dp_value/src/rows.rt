//! The rows of an array: its keys and its values side by side, of which some may be removed already.
//!
//! A row that is removed may stay for a while, with null for a value. Such rows stand together, and move to where the
//! next one is removed, by swaps with rows that are left; one that stands closer to the end goes by closing up, until
//! as much has closed up as to move takes. They are cleared before the next removal where as many are removed as are
//! left, and where that takes less than to move them to the front. So a queue, and a sweep either way, take a constant
//! time for each entry on average, and at most one row more is removed than are left.

ghost use Rattle.std.specs.Prelude.{◌≡◌, ◌+◌, ◌<◌, ◌≤◌, ◌++◌, ◌∷◌, [], get_or, length, remove, set, OnOk, OnErr};
ghost use Rattle.std.specs.Prelude.{IsTrue};
ghost use Rattle.std.specs.List.{remove_range};
ghost use Rattle.dp_value.specs.Data.{pairs_weight};
ghost use Rattle.dp_value.specs.Key.{key_eq};
ghost use Rattle.dp_value.specs.Place.{IsAbsent};
ghost use Rattle.dp_value.specs.Table.{put, weight_limit};
ghost use Rattle.dp_value.specs.Value.{data_of, pairs_in};
ghost use Rattle.dp_value.specs.inner.Kept.{is_rising, kept_keys};
ghost use Rattle.dp_value.specs.inner.Left.{left};
ghost use Rattle.dp_value.specs.inner.Rows.{left_in, AreNull, AreRows, GoesLast};

use crate::kept::{Kept, nth, row};
use crate::{Key, Value, weight};
use dp_bytes::Memory;
use std::mem;

/// The value at a position among those that are left.
pub(crate) fn nth_value(values: &Vec<Value>, start: usize, gone: usize, at: usize) -> &Value
    requires nulls { AreNull start gone values.now.items }
    requires there { at < length (left start gone values.now.items) }
    ensures { result.now ≡ get_or (left start gone values.now.items) at result.now }
{
    nth(values.as_slice(), start, gone, at)
}

/// Puts a value at a position among those that are left, and gives the one out that was there.
pub(crate) fn replace_nth(
    values: &mut Vec<Value>,
    start: usize,
    gone: usize,
    at: usize,
    value: Value,
) -> Value
    requires nulls { AreNull start gone values.old.items }
    requires there { at < length (left start gone values.old.items) }
    ensures was { result ≡ get_or (left start gone values.old.items) at result }
    ensures left { left start gone values.new.items ≡ set (left start gone values.old.items) at value }
    ensures nulls { AreNull start gone values.new.items }
    ensures same_length { length values.new.items ≡ length values.old.items }
{
    let found = row(start, gone, at);
    mem::replace(&mut values[found], value)
}

/// Puts a value under a key: in its place where the key is there, else behind all others.
pub(crate) fn store(
    kept: &mut Kept,
    values: &mut Vec<Value>,
    start: &mut usize,
    gone: &mut usize,
    key: Key,
    value: Value,
) -> Result<(), Memory>
    requires { AreRows start.old gone.old (is_rising kept.old) (kept_keys kept.old) values.old.items }
    ensures ok { OnOk result (left_in start.new gone.new (kept_keys kept.new) values.new.items ≡ put
        (left_in start.old gone.old (kept_keys kept.old) values.old.items) key (data_of value)) }
    ensures err { OnErr result (left_in start.new gone.new (kept_keys kept.new) values.new.items ≡ left_in start.old
        gone.old (kept_keys kept.old) values.old.items) }
    ensures rows { AreRows start.new gone.new (is_rising kept.new) (kept_keys kept.new) values.new.items }
{
    if let Some(at) = kept.place(*start, *gone, &key) {
        let _ = replace_nth(values, *start, *gone, at, value);
        return Ok(());
    }
    make_way(kept, values, start, gone, &key)?;
    push_row(kept, values, *start, *gone, key, value)?;
    Ok(())
}

/// Has a key that is not there go behind all rows. What is removed is cleared where it is in the way.
fn make_way(
    kept: &mut Kept,
    values: &mut Vec<Value>,
    start: &mut usize,
    gone: &mut usize,
    key: &Key,
) -> Result<(), Memory>
    requires rows { AreRows start.old gone.old (is_rising kept.old) (kept_keys kept.old) values.old.items }
    requires absent { IsAbsent (key_eq key.now) (left start.old gone.old (kept_keys kept.old)) }
    ensures keys { left start.new gone.new (kept_keys kept.new) ≡ left start.old gone.old (kept_keys kept.old) }
    ensures values { left start.new gone.new values.new.items ≡ left start.old gone.old values.old.items }
    ensures rows { AreRows start.new gone.new (is_rising kept.new) (kept_keys kept.new) values.new.items }
    ensures way { OnOk result (GoesLast start.new gone.new (is_rising kept.new) (kept_keys kept.new) key.now) }
{
    if kept.takes(*start, *gone, key) {
        return Ok(());
    }
    clear_rows(kept, values, start, gone);
    kept.index()?;
    Ok(())
}

/// Puts a row behind all others.
fn push_row(
    kept: &mut Kept,
    values: &mut Vec<Value>,
    start: usize,
    gone: usize,
    key: Key,
    value: Value,
) -> Result<(), Memory>
    requires rows { AreRows start gone (is_rising kept.old) (kept_keys kept.old) values.old.items }
    requires way { GoesLast start gone (is_rising kept.old) (kept_keys kept.old) key }
    ensures ok { OnOk result (left_in start gone (kept_keys kept.new) values.new.items ≡ pairs_in
        (left start gone (kept_keys kept.old) ++ key ∷ []) (left start gone values.old.items ++ value ∷ [])) }
    ensures err { OnErr result (left_in start gone (kept_keys kept.new) values.new.items ≡ left_in start gone (kept_keys
        kept.old) values.old.items) }
    ensures rows { AreRows start gone (is_rising kept.new) (kept_keys kept.new) values.new.items }
{
    values.reserve(1)?;
    kept.push(key)?;
    values.push_reserved(value);
    Ok(())
}

/// Takes a row out of those that are left, and gives what it weighed.
pub(crate) fn take_out(
    kept: &mut Kept,
    values: &mut Vec<Value>,
    start: &mut usize,
    gone: &mut usize,
    closed: &mut usize,
    at: usize,
) -> u64
    requires rows { AreRows start.old gone.old (is_rising kept.old) (kept_keys kept.old) values.old.items }
    requires there { at < length (left start.old gone.old (kept_keys kept.old)) }
    requires light { pairs_weight (left_in start.old gone.old (kept_keys kept.old) values.old.items) ≤ weight_limit }
    ensures keys { left start.new gone.new (kept_keys kept.new) ≡ remove (left start.old gone.old (kept_keys kept.old))
        at }
    ensures values { left start.new gone.new values.new.items ≡ remove (left start.old gone.old values.old.items) at }
    ensures rows { AreRows start.new gone.new (is_rising kept.new) (kept_keys kept.new) values.new.items }
    ensures weight { result + pairs_weight (left_in start.new gone.new (kept_keys kept.new) values.new.items) ≡
        pairs_weight (left_in start.old gone.old (kept_keys kept.old) values.old.items) }
{
    let key = kept.at(*start, *gone, at);
    let value = nth_value(values, *start, *gone, at);
    let weight = 1 + key.weight() + weight(value);
    take_row(kept, values, start, gone, closed, at);
    weight
}

/// Takes a row out of those that are left: by closing up where it stands close to the end, else by a mark.
fn take_row(
    kept: &mut Kept,
    values: &mut Vec<Value>,
    start: &mut usize,
    gone: &mut usize,
    closed: &mut usize,
    at: usize,
)
    requires rows { AreRows start.old gone.old (is_rising kept.old) (kept_keys kept.old) values.old.items }
    requires there { gone.old + at < length (kept_keys kept.old) }
    ensures keys { left start.new gone.new (kept_keys kept.new) ≡ remove (left start.old gone.old (kept_keys kept.old))
        at }
    ensures values { left start.new gone.new values.new.items ≡ remove (left start.old gone.old values.old.items) at }
    ensures rows { AreRows start.new gone.new (is_rising kept.new) (kept_keys kept.new) values.new.items }
{
    clear_many(kept, values, start, gone, at);
    remove_row(kept, values, start, gone, closed, at);
}

/// The same where fewer rows are removed than are left.
fn remove_row(
    kept: &mut Kept,
    values: &mut Vec<Value>,
    start: &mut usize,
    gone: &mut usize,
    closed: &mut usize,
    at: usize,
)
    requires rows { AreRows start.old gone.old (is_rising kept.old) (kept_keys kept.old) values.old.items }
    requires there { gone.old + at < length (kept_keys kept.old) }
    ensures keys { left start.new gone.new (kept_keys kept.new) ≡ remove (left start.old gone.old (kept_keys kept.old))
        at }
    ensures values { left start.new gone.new values.new.items ≡ remove (left start.old gone.old values.old.items) at }
    ensures rows { AreRows start.new gone.new (is_rising kept.new) (kept_keys kept.new) values.new.items }
{
    let rows = kept.len();
    if closes_up(*start, *gone, at, rows, closed) {
        kept.remove(*gone + at);
        let _ = values.remove(*gone + at);
        return;
    }
    move_rows(kept, values, start, gone, at);
    values[*start + *gone] = Value::Null;
    *gone += 1;
}

/// Clears the rows that are removed already where they are as many as those that are left, and where no more rows stand
/// behind them than between them and a row before them.
fn clear_many(
    kept: &mut Kept,
    values: &mut Vec<Value>,
    start: &mut usize,
    gone: &mut usize,
    at: usize,
)
    requires { AreRows start.old gone.old (is_rising kept.old) (kept_keys kept.old) values.old.items }
    ensures keys { left start.new gone.new (kept_keys kept.new) ≡ left start.old gone.old (kept_keys kept.old) }
    ensures values { left start.new gone.new values.new.items ≡ left start.old gone.old values.old.items }
    ensures rows { AreRows start.new gone.new (is_rising kept.new) (kept_keys kept.new) values.new.items }
{
    let left = kept.len() - *gone;
    if *gone >= left || (at < *start && left - *start <= *start - at) {
        clear_rows(kept, values, start, gone);
    }
}

/// Whether a row behind those that are removed goes by closing up: the last one, or where no more rows have closed up
/// with it, since those that are removed moved, than stand between. What has closed up is counted.
fn closes_up(start: usize, gone: usize, at: usize, rows: usize, closed: &mut usize) -> bool
    requires { gone + at < rows }
    ensures { IsTrue result → start ≤ at }
{
    let behind = rows - gone - at;
    let all = closed.saturating_add(behind);
    let closes = start <= at && (behind == 1 || (gone > 0 && all <= at - start));
    *closed = if closes { all } else { 0 };
    closes
}

/// Has the rows that are removed stand before the row at a position.
fn move_rows(
    kept: &mut Kept,
    values: &mut Vec<Value>,
    start: &mut usize,
    gone: &mut usize,
    at: usize,
)
    requires rows { AreRows start.old gone.old (is_rising kept.old) (kept_keys kept.old) values.old.items }
    requires there { gone.old + at < length (kept_keys kept.old) }
    ensures keys { left start.new gone.new (kept_keys kept.new) ≡ left start.old gone.old (kept_keys kept.old) }
    ensures values { left start.new gone.new values.new.items ≡ left start.old gone.old values.old.items }
    ensures rows { AreRows start.new gone.new (is_rising kept.new) (kept_keys kept.new) values.new.items }
    ensures there { start.new ≡ at }
    ensures room { start.new + gone.new < length values.new.items }
{
    if *gone == 0 {
        *start = at;
        return;
    }
    if at < *start {
        move_back(kept, values, start, *gone, at);
        return;
    }
    'rows: while *start < at {
        kept.swap(*start, *start + *gone);
        values.swap(*start, *start + *gone);
        *start += 1;
    }
}

/// The same towards the front, where some are removed.
fn move_back(kept: &mut Kept, values: &mut Vec<Value>, start: &mut usize, gone: usize, at: usize)
    requires rows { AreRows start.old gone (is_rising kept.old) (kept_keys kept.old) values.old.items }
    requires some { 0 < gone }
    requires back { at ≤ start.old }
    ensures keys { left start.new gone (kept_keys kept.new) ≡ left start.old gone (kept_keys kept.old) }
    ensures values { left start.new gone values.new.items ≡ left start.old gone values.old.items }
    ensures rows { AreRows start.new gone (is_rising kept.new) (kept_keys kept.new) values.new.items }
    ensures there { start.new ≡ at }
    ensures same_length { length values.new.items ≡ length values.old.items }
{
    'rows: while at < *start {
        *start -= 1;
        kept.swap(*start, *start + gone);
        values.swap(*start, *start + gone);
    }
}

/// Clears the rows that are removed already.
fn clear_rows(kept: &mut Kept, values: &mut Vec<Value>, start: &mut usize, gone: &mut usize)
    requires { AreRows start.old gone.old (is_rising kept.old) (kept_keys kept.old) values.old.items }
    ensures keys { kept_keys kept.new ≡ left start.old gone.old (kept_keys kept.old) }
    ensures values { values.new.items ≡ left start.old gone.old values.old.items }
    ensures start { start.new ≡ 0 }
    ensures none { gone.new ≡ 0 }
    ensures rows { AreRows start.new gone.new (is_rising kept.new) (kept_keys kept.new) values.new.items }
{
    // The number of rows is what says that a row fits.
    let _rows = kept.len();
    kept.remove_between(*start, *start + *gone);
    remove_between(values, *start, *start + *gone);
    *start = 0;
    *gone = 0;
}

/// Removes the values in the rows from one up to another.
fn remove_between(values: &mut Vec<Value>, from: usize, to: usize)
    requires order { from ≤ to }
    requires within { to ≤ length values.old.items }
    ensures { values.new.items ≡ remove_range values.old.items from to }
{
    drop(values.drain(from..to));
}
