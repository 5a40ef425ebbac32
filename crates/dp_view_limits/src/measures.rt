//! What is left of a count behind properties, which is counted before they are made. The walk over values ends where
//! the count does. No call takes memory.

ghost use Rattle.std.specs.Prelude.{◌≡◌, ◌-◌, ◌<◌, drop, take, sum_by, slice_get, None, Some};
ghost use Rattle.std.specs.Option.{option_map_or};
ghost use Rattle.dp_value.specs.Value.{data_of};
ghost use Rattle.dp_view.specs.Names as names;
ghost use Rattle.dp_view.specs.Properties as properties;
ghost use Rattle.dp_view_limits.specs.inner.Sizes as spec;

use crate::counts::{
    FULL_NAME, NAME, PROPERTY, after_array, after_front, after_full_name, after_index, after_int,
    after_key, after_own_name, after_variable_name,
};
use dp_state::{Path, Vars};
use dp_value::{Key, PhpArray, Value};
use dp_view::{Paging, page_end, page_start, slot_value};

/// The length of the full name of an entry, where that of its array is known, and what is left behind its attribute.
/// Where nothing is left the length is no matter.
fn after_full(full: Option<u64>, key: &Key, left: u64) -> (Option<u64>, u64)
    ensures left { result.1 ≡ left - spec.given_size spec.full_frame (spec.full_behind full key.now) }
    ensures full { 0 < result.1 → result.0 ≡ spec.full_behind full key.now }
{
    match full {
        None => (None, left),
        Some(n) => {
            let before = left.saturating_sub(FULL_NAME).saturating_sub(n);
            let rest = after_index(key, before);
            (Some(n + (before - rest)), rest)
        }
    }
}

/// Behind an entry, of which so many levels of arrays are shown.
#[cycle(measuring)]
fn after_entry(
    p: &Paging,
    levels: u32,
    full: Option<u64>,
    key: &Key,
    value: &Value,
    left: u64,
) -> u64
    ensures { result ≡ left -
        spec.entry_size p.now (spec.entries_size p.now levels) full (key.now, data_of value.now) }
{
    let (full, rest) = after_full(
        full,
        key,
        after_key(key, left.saturating_sub(PROPERTY + NAME)),
    );
    after_value(p, 0, levels, full, value, rest)
}

/// Behind the entry at a position, if there is one.
#[cycle(measuring)]
fn after_place(
    p: &Paging,
    levels: u32,
    full: Option<u64>,
    array: &PhpArray,
    at: usize,
    left: u64,
) -> u64
    ensures { result ≡ left - option_map_or (spec.entry_size p.now (spec.entries_size p.now levels) full)
        (slice_get array.now.pairs at) 0 }
{
    match array.pair(at) {
        Some((key, value)) => after_entry(p, levels, full, key, value, left),
        None => left,
    }
}

/// Behind the entries from a position up to another one.
#[cycle(measuring)]
fn after_entries(
    p: &Paging,
    levels: u32,
    full: Option<u64>,
    array: &PhpArray,
    start: usize,
    end: usize,
    left: u64,
) -> u64
    ensures { result ≡ left - sum_by (spec.entry_size p.now (spec.entries_size p.now levels) full)
        (drop start (take end array.now.pairs)) }
{
    let mut rest = left;
    for at in start..end {
        if rest == 0 {
            return 0;
        }
        rest = after_place(p, levels, full, array, at, rest);
    }
    rest
}

/// Behind what is shown in an array where so many levels are left.
#[cycle(measuring)]
fn after_nested(
    p: &Paging,
    page: u64,
    levels: u32,
    full: Option<u64>,
    array: &PhpArray,
    left: u64,
) -> u64
    ensures { result ≡ left - spec.entries_size p.now levels full
        (properties.page_of page p.now.children array.now.pairs) }
{
    if levels == 0 {
        return left;
    }
    let start = page_start(array, page, p.children);
    let end = page_end(array, start, p.children);
    after_entries(p, levels - 1, full, array, start, end, left)
}

/// Behind what a value adds to its property.
#[cycle(measuring)]
fn after_value(
    p: &Paging,
    page: u64,
    levels: u32,
    full: Option<u64>,
    value: &Value,
    left: u64,
) -> u64
    ensures { result ≡ left -
        spec.value_size p.now page (spec.entries_size p.now levels full) (data_of value.now) }
{
    match value {
        Value::Null => left.saturating_sub(12),
        Value::Bool(_) => left.saturating_sub(13),
        Value::Int(n) => after_int(*n, left.saturating_sub(11)),
        Value::Text(bytes) => after_front(p.bytes, bytes.as_slice(), left),
        Value::Array(array) => {
            let rest = after_array(array.len() as u64, page, p.children, left);
            after_nested(p, page, levels, full, array, rest)
        }
    }
}

/// Behind a property without names.
pub(crate) fn after_shown(p: &Paging, value: &Value, left: u64) -> u64
    ensures { result ≡ left - spec.named_size p.now None None (data_of value.now) }
{
    after_value(
        p,
        p.page,
        p.depth,
        None,
        value,
        left.saturating_sub(PROPERTY),
    )
}

/// Behind the property of the value at a path in a context.
pub(crate) fn after_path(id: u32, path: &Path, p: &Paging, value: &Value, left: u64) -> u64
    ensures { result ≡ left - spec.named_size p.now (Some (spec.text_size (names.own_name id path.now)))
        (Some (spec.text_size (names.full_name id path.now))) (data_of value.now) }
{
    let before = after_own_name(id, path, left.saturating_sub(PROPERTY + NAME + FULL_NAME));
    let rest = after_full_name(id, path, before);
    after_value(p, p.page, p.depth, Some(before - rest), value, rest)
}

/// Behind the property of a variable of a context with this value.
fn after_named(id: u32, name: &[u8], p: &Paging, value: &Value, left: u64) -> u64
    ensures { result ≡ left - spec.named_size p.now (Some (spec.text_size (names.variable_name id name.now)))
        (Some (spec.text_size (names.variable_name id name.now))) (data_of value.now) }
{
    let before = left.saturating_sub(PROPERTY + NAME + FULL_NAME);
    let between = after_variable_name(id, name, before);
    let size = before - between;
    let rest = between.saturating_sub(size);
    after_value(p, p.page, p.depth, Some(size), value, rest)
}

/// Behind the property of the variable at a position, if it has a value.
fn after_variable(
    id: u32,
    p: &Paging,
    globals: &Vars,
    variables: &Vars,
    at: usize,
    left: u64,
) -> u64
    ensures { result ≡ left -
        option_map_or (spec.variable_size id p.now globals.now) (slice_get variables.now at) 0 }
{
    let Some((name, slot)) = variables.pair(at) else {
        return left;
    };
    match slot_value(globals, name, slot) {
        Some(value) => after_named(id, name.as_slice(), p, value, left),
        None => left,
    }
}

/// Behind the properties of the variables of a context.
pub(crate) fn after_variables(
    id: u32,
    p: &Paging,
    globals: &Vars,
    variables: &Vars,
    left: u64,
) -> u64
    ensures { result ≡ left - sum_by (spec.variable_size id p.now globals.now) variables.now }
{
    let mut rest = left;
    for at in 0..variables.len() {
        if rest == 0 {
            return 0;
        }
        rest = after_variable(id, p, globals, variables, at, rest);
    }
    rest
}
