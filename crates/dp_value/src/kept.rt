//! How the keys of an array are kept.
//!
//! Integer keys that rise, as those of a list that only grows at its end, stand in a plain vector: a key's row is found
//! from its distance to the first key, or by halving. All other keys stand in an `IndexSet`. Some rows may be removed
//! already (`crate::rows`).

ghost use Rattle.std.specs.Prelude.{◌≡◌, ◌+◌, ◌<◌, ◌≤◌, ◌↔◌, ◌++◌, ◌^◌, ◌∷◌, [], get_or, length, remove, swap};
ghost use Rattle.std.specs.Prelude.{false, true, IfOk, IsTrue, MatchOption, OnOk, OnErr, Some};
ghost use Rattle.std.specs.declared.cmp.Ordering.TheVariants.{Less};
ghost use Rattle.std.specs.List.{IsDistinct, remove_range};
ghost use Rattle.dp_value.specs.Key.{key_eq};
ghost use Rattle.dp_value.specs.Place.{IsAbsent, IsFirst};
ghost use Rattle.dp_value.specs.inner.Kept.{is_rising, kept_keys};
ghost use Rattle.dp_value.specs.inner.Left.{left, row_at};
ghost use Rattle.dp_value.specs.inner.Rising.{IsRising, integer_order};
ghost use Rattle.dp_value.specs.inner.Rows.{AreKeys, GoesLast, Rises};

use crate::Key;
use dp_bytes::Memory;
use indexmap::IndexSet;
use std::alloc::Global;
use std::cmp::Ordering;

/// What one row more, and one removed row more, moves the key that stands in for one that was removed: primes, so that
/// hardly any two of these keys are the same where a few of each change together.
const ROWS_APART: u64 = 1_000_003;

const GONE_APART: u64 = 7919;

/// Keys: those that rise in a vector, others in a set.
#[derive(Debug, Drop)]
pub(crate) enum Kept {
    Rising(Vec<Key>),
    Indexed(IndexSet<Key>),
}

impl Kept {
    /// The keys in all rows.
    pub(crate) fn as_slice(&self) -> &[Key]
        ensures { result.now ≡ kept_keys self.now }
    {
        match self {
            Kept::Rising(keys) => keys.as_slice(),
            Kept::Indexed(keys) => keys.as_slice(),
        }
    }

    /// The number of rows.
    pub(crate) fn len(&self) -> usize
        ensures { result ≡ length (kept_keys self.now) }
    {
        self.as_slice().len()
    }

    /// Removes the key in a row; those behind it close up.
    pub(crate) fn remove(&mut self, row: usize)
        requires { row < length (kept_keys self.old) }
        ensures keys { kept_keys self.new ≡ remove (kept_keys self.old) row }
        ensures rises { is_rising self.new ≡ is_rising self.old }
    {
        match self {
            Kept::Rising(keys) => drop(keys.remove(row)),
            Kept::Indexed(keys) => drop(keys.shift_remove_index(row)),
        }
    }

    /// Removes the keys in the rows from one up to another.
    pub(crate) fn remove_between(&mut self, from: usize, to: usize)
        requires order { from ≤ to }
        requires within { to ≤ length (kept_keys self.old) }
        ensures keys { kept_keys self.new ≡ remove_range (kept_keys self.old) from to }
        ensures rises { is_rising self.new ≡ is_rising self.old }
    {
        match self {
            Kept::Rising(keys) => drop(keys.drain(from..to)),
            Kept::Indexed(keys) => drop(keys.drain(from..to)),
        }
    }

    /// Exchanges the keys in two rows.
    pub(crate) fn swap(&mut self, a: usize, b: usize)
        requires a_within { a < length (kept_keys self.old) }
        requires b_within { b < length (kept_keys self.old) }
        ensures keys { kept_keys self.new ≡ swap (kept_keys self.old) a b }
        ensures rises { is_rising self.new ≡ is_rising self.old }
    {
        match self {
            Kept::Rising(keys) => keys.swap(a, b),
            Kept::Indexed(keys) => keys.swap_indices(a, b),
        }
    }

    /// Puts a key behind those in all rows. A set lacks it.
    pub(crate) fn push(&mut self, key: Key) -> Result<(), Memory>
        requires { is_rising self.old ≡ false → IsAbsent (key_eq key) (kept_keys self.old) }
        ensures ok { OnOk result (kept_keys self.new ≡ kept_keys self.old ++ key ∷ []) }
        ensures err { OnErr result (kept_keys self.new ≡ kept_keys self.old) }
        ensures rises { is_rising self.new ≡ is_rising self.old }
    {
        match self {
            Kept::Rising(keys) => Ok(keys.push(key)?),
            Kept::Indexed(keys) => put_in(keys, key),
        }
    }

    /// Has the keys stand in a set.
    pub(crate) fn index(&mut self) -> Result<(), Memory>
        requires { Rises (is_rising self.old) (kept_keys self.old) }
        ensures keys { kept_keys self.new ≡ kept_keys self.old }
        ensures indexed { OnOk result (is_rising self.new ≡ false) }
        ensures stays { OnErr result (is_rising self.new ≡ is_rising self.old) }
    {
        match self {
            Kept::Rising(keys) => {
                let set = set_of(*keys.allocator(), keys.as_slice())?;
                *self = Kept::Indexed(set);
                Ok(())
            }
            Kept::Indexed(_) => Ok(()),
        }
    }

    /// Equal keys, kept alike.
    pub(crate) fn try_clone(&self) -> Result<Kept, Memory>
        ensures keys { IfOk result (λ copy. kept_keys copy ≡ kept_keys self.now) }
        ensures rises { IfOk result (λ copy. is_rising copy ≡ is_rising self.now) }
    {
        match self {
            Kept::Rising(keys) => Ok(Kept::Rising(copies(*keys.allocator(), keys.as_slice())?)),
            Kept::Indexed(keys) => Ok(Kept::Indexed(set_of(*keys.allocator(), keys.as_slice())?)),
        }
    }

    /// The key at a position among those that are left.
    pub(crate) fn at(&self, start: usize, gone: usize, at: usize) -> &Key
        requires within { start + gone ≤ length (kept_keys self.now) }
        requires there { at < length (left start gone (kept_keys self.now)) }
        ensures { result.now ≡ get_or (left start gone (kept_keys self.now)) at result.now }
    {
        nth(self.as_slice(), start, gone, at)
    }

    /// The position of a key among those that are left.
    pub(crate) fn place(&self, start: usize, gone: usize, key: &Key) -> Option<usize>
        requires { AreKeys start gone (is_rising self.now) (kept_keys self.now) }
        ensures { MatchOption result (IsAbsent (key_eq key.now) (left start gone (kept_keys self.now)))
            (IsFirst (key_eq key.now) (left start gone (kept_keys self.now))) }
    {
        match self {
            Kept::Rising(keys) => rising_place(keys.as_slice(), start, gone, key),
            Kept::Indexed(keys) => indexed_place(keys, start, gone, key),
        }
    }

    /// Whether a key that is not among those that are left can stand behind all rows. Another key takes its row in a
    /// set, where it is removed.
    pub(crate) fn takes(&mut self, start: usize, gone: usize, key: &Key) -> bool
        requires { AreKeys start gone (is_rising self.old) (kept_keys self.old) }
        ensures left { left start gone (kept_keys self.new) ≡ left start gone (kept_keys self.old) }
        ensures same_length { length (kept_keys self.new) ≡ length (kept_keys self.old) }
        ensures rises { is_rising self.new ≡ is_rising self.old }
        ensures last { IsTrue result → GoesLast start gone (is_rising self.new) (kept_keys self.new) key.now }
    {
        match self {
            Kept::Rising(keys) => goes_on(keys.as_slice(), start, gone, key),
            Kept::Indexed(keys) => frees(keys, start, gone, key),
        }
    }
}

/// The row that stands at a position among those that are left.
pub(crate) fn row(start: usize, gone: usize, at: usize) -> usize
    requires { gone + at < 2 ^ 64 }
    ensures { result ≡ row_at start gone at }
{
    if at < start {
        return at;
    }
    gone + at
}

/// The element at a position among those that are left.
pub(crate) fn nth<T>(rows: &[T], start: usize, gone: usize, at: usize) -> &T
    requires within { start + gone ≤ length rows.now }
    requires there { at < length (left start gone rows.now) }
    ensures { result.now ≡ get_or (left start gone rows.now) at result.now }
{
    let found = row(start, gone, at);
    &rows[found]
}

/// Whether keys that rise still do with this one behind those that are left.
fn goes_on(keys: &[Key], start: usize, gone: usize, key: &Key) -> bool
    requires { AreKeys start gone true keys.now }
    ensures { IsTrue result ↔ IsRising (left start gone keys.now ++ key.now ∷ []) }
{
    let rows = keys.len() - gone;
    if rows == 0 {
        return is_integer(key);
    }
    is_below(nth(keys, start, gone, rows - 1), key)
}

/// Whether a key is an integer.
fn is_integer(key: &Key) -> bool
    ensures { IsTrue result ↔ IsRising (key.now ∷ []) }
{
    matches!(key, Key::Int(_))
}

/// The position of a key among integers that rise: where it is expected, else found by halving.
fn rising_place(keys: &[Key], start: usize, gone: usize, key: &Key) -> Option<usize>
    requires { AreKeys start gone true keys.now }
    ensures { MatchOption result (IsAbsent (key_eq key.now) (left start gone keys.now))
        (IsFirst (key_eq key.now) (left start gone keys.now)) }
{
    let mut next = expected(keys, start, gone, key);
    let mut low = 0;
    let mut high = keys.len() - gone;
    'rows: while low < high {
        let at = next.max(low).min(high - 1);
        let Some(side) = order(nth(keys, start, gone, at), key) else {
            return None;
        };
        match side {
            Ordering::Equal => return Some(at),
            Ordering::Less => low = at + 1,
            Ordering::Greater => high = at,
        }
        next = low + (high - low) / 2;
    }
    None
}

/// Where a key is expected: as far behind the rows that are removed as it is above the first key there, else as far
/// from the first row.
fn expected(keys: &[Key], start: usize, gone: usize, key: &Key) -> usize {
    match distance(keys.get(start.saturating_add(gone)), key) {
        Some(far) => start.saturating_add(far),
        None => distance(keys.first(), key).unwrap_or(0),
    }
}

/// How far a key is above another one, where both are integers.
fn distance(from: Option<&Key>, key: &Key) -> Option<usize> {
    match (from, key) {
        (Some(Key::Int(from)), Key::Int(n)) if *from <= *n => Some(n.abs_diff(*from) as usize),
        _ => None,
    }
}

/// The position of a key in a set, where some rows are removed.
fn indexed_place(keys: &IndexSet<Key>, start: usize, gone: usize, key: &Key) -> Option<usize>
    requires { AreKeys start gone false keys.now.keys }
    ensures { MatchOption result (IsAbsent (key_eq key.now) (left start gone keys.now.keys))
        (IsFirst (key_eq key.now) (left start gone keys.now.keys)) }
{
    let Some(row) = indexed_row(keys, key) else {
        return None;
    };
    if row < start {
        return Some(row);
    }
    // The number of rows is what says that a row fits, and that no key is there twice.
    let _rows = keys.len();
    if row < start + gone {
        return None;
    }
    Some(row - gone)
}

/// The row of a key in a set.
fn indexed_row(keys: &IndexSet<Key>, key: &Key) -> Option<usize>
    ensures { MatchOption result (IsAbsent (key_eq key.now) keys.now.keys) (IsFirst (key_eq key.now) keys.now.keys) }
{
    keys.get_index_of(key)
}

/// Whether a set lacks a key, once another one took its row where that is removed.
fn frees(keys: &mut IndexSet<Key>, start: usize, gone: usize, key: &Key) -> bool
    requires { start + gone ≤ length keys.old.keys }
    ensures left { left start gone keys.new.keys ≡ left start gone keys.old.keys }
    ensures same_length { length keys.new.keys ≡ length keys.old.keys }
    ensures lacks { IsTrue result → IsAbsent (key_eq key.now) keys.new.keys }
{
    let Some(row) = indexed_row(keys, key) else {
        return true;
    };
    let rows = keys.len();
    let other = spare(rows, gone, row);
    if row < start || start + gone <= row || !lacks(keys, &other) {
        return false;
    }
    let Ok(()) = put_in(keys, other) else {
        return false;
    };
    let _ = keys.swap_remove_index(row);
    lacks(keys, key)
}

/// A key that hardly any program uses, and hardly ever one that was made for other numbers of rows and removed rows.
fn spare(rows: usize, gone: usize, row: usize) -> Key {
    let n = (rows as u64)
        .wrapping_mul(ROWS_APART)
        .wrapping_add((gone as u64).wrapping_mul(GONE_APART))
        .wrapping_add(row as u64);
    Key::Int(i64::MIN.wrapping_add_unsigned(n))
}

/// Whether a set lacks a key.
fn lacks(keys: &IndexSet<Key>, key: &Key) -> bool
    ensures { IsTrue result → IsAbsent (key_eq key.now) keys.now.keys }
{
    match indexed_row(keys, key) {
        None => true,
        Some(_) => false,
    }
}

/// Whether a key is an integer below another one.
fn is_below(a: &Key, b: &Key) -> bool
    ensures { IsTrue result ↔ integer_order a.now b.now ≡ Some Less }
{
    matches!(order(a, b), Some(Ordering::Less))
}

/// How a key stands to another in the order of integers, where both are integers.
fn order(a: &Key, b: &Key) -> Option<Ordering>
    ensures { result ≡ integer_order a.now b.now }
{
    match (a, b) {
        (Key::Int(a), Key::Int(b)) => Some(a.cmp(b)),
        _ => None,
    }
}

/// Puts a key that a set lacks behind all others.
fn put_in(keys: &mut IndexSet<Key>, key: Key) -> Result<(), Memory>
    requires { IsAbsent (key_eq key) keys.old.keys }
    ensures ok { OnOk result (keys.new.keys ≡ keys.old.keys ++ key ∷ []) }
    ensures err { OnErr result (keys.new.keys ≡ keys.old.keys) }
{
    keys.insert(key)?;
    Ok(())
}

/// A set of these keys, in their order.
fn set_of(alloc: Global, keys: &[Key]) -> Result<IndexSet<Key>, Memory>
    requires { IsDistinct key_eq keys.now }
    ensures { IfOk result (λ set. set.keys ≡ keys.now) }
{
    let mut set = IndexSet::with_capacity(alloc, keys.len())?;
    for key in keys {
        let _ = set.insert(key.try_clone()?)?;
    }
    Ok(set)
}

/// Equal keys, in their order.
fn copies(alloc: Global, keys: &[Key]) -> Result<Vec<Key>, Memory>
    ensures { IfOk result (λ copy. copy.items ≡ keys.now) }
{
    let mut copy = Vec::with_capacity(alloc, keys.len())?;
    for key in keys {
        copy.push(key.try_clone()?)?;
    }
    Ok(copy)
}
