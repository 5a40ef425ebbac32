//! Properties: what is shown of values.

ghost use Rattle.std.specs.Prelude.{◌≡◌, ◌+◌, ◌*◌, ◌++◌, true, None, min, take, drop, length, IfOk, OnErr, OnOk};
ghost use Rattle.dp_value.specs.Value.{data_of};
ghost use Rattle.dp_view.specs.Answers.{Answers};
ghost use Rattle.dp_view.specs.Properties as spec;
ghost use Rattle.dp_view.specs.Children.{HasPaths};
ghost use Rattle.dp_view.specs.inner.Keyed.{AreKeyed, HoldsWithin, IsKeyed};
ghost use Rattle.dp_view.specs.inner.Additions as making;

use crate::Memory;
use crate::errors::ViewError;
use crate::names::{entry_name, full_name, key_text, own_name};
use crate::paging::Paging;
use crate::places::value_at;
use dp_bytes::{Bytes, Items};
use dp_packet::{Property, Shape};
use dp_state::{Path, State};
use dp_value::{Key, PhpArray, Value};
use std::alloc::Global;

/// The first bytes of a text, at most so many.
fn front(alloc: Global, bytes: &[u8], most: u64) -> Result<Bytes, Memory>
    ensures { IfOk result (λ f. f ≡ take most bytes.now) }
{
    let end = bytes.len().min(most as usize);
    Bytes::from_slice(alloc, &bytes[..end])
}

/// Where a page of an array begins, counted from 0, where a page has so many entries: at its end, if there are not so
/// many. Takes no memory.
pub fn page_start(array: &PhpArray, page: u64, size: u64) -> usize
    ensures { result ≡ min (page * size) (length array.now.pairs) }
{
    let len = array.len();
    len.min(page.saturating_mul(size) as usize)
}

/// Where a page of an array ends that begins here: at its end, if it comes before. Takes no memory.
pub fn page_end(array: &PhpArray, start: usize, size: u64) -> usize
    ensures { result ≡ min (start + size) (length array.now.pairs) }
{
    let len = array.len();
    len.min(start.saturating_add(size as usize))
}

/// The property of an entry, of which so many levels of arrays are shown.
#[cycle(nesting)]
fn entry(
    alloc: Global,
    p: &Paging,
    levels: u32,
    full: &Option<Bytes>,
    key: &Key,
    value: &Value,
) -> Result<Property, Memory>
    ensures made { IfOk result (λ made. made ≡ making.property_in p.now levels full.now (key.now, data_of value.now)) }
    ensures keyed { OnOk result (IsKeyed p.now.children 0 levels (data_of value.now)) }
{
    let name = key_text(alloc, key)?;
    let fullname = entry_name(alloc, full, key)?;
    let shape = shape(alloc, p, 0, levels, &fullname, value)?;
    Ok(Property {
        name: Some(name),
        fullname,
        shape,
    })
}

/// Puts the property of the entry at a position behind others.
#[cycle(nesting)]
fn put_entry(
    alloc: Global,
    p: &Paging,
    levels: u32,
    full: &Option<Bytes>,
    array: &PhpArray,
    at: usize,
    made: &mut Vec<Property>,
) -> Result<(), Memory>
    ensures made { OnOk result (made.new.items ≡
        made.old.items ++ making.properties_at p.now levels full.now array.now.pairs at) }
    ensures keyed { OnOk result
        (HoldsWithin (IsKeyed p.now.children 0 levels) array.now.pairs at (at + 1)) }
{
    if let Some((key, value)) = array.pair(at) {
        made.push(entry(alloc, p, levels, full, key, value)?)?;
    }
    Ok(())
}

/// The properties of the entries of an array from a position up to another one.
#[cycle(nesting)]
fn entries(
    alloc: Global,
    p: &Paging,
    levels: u32,
    full: &Option<Bytes>,
    array: &PhpArray,
    start: usize,
    end: usize,
) -> Result<Vec<Property>, Memory>
    ensures made { IfOk result (λ made. made.items ≡
        making.properties p.now levels full.now (drop start (take end array.now.pairs))) }
    ensures keyed { OnOk result (HoldsWithin (IsKeyed p.now.children 0 levels) array.now.pairs start end) }
{
    let mut made = Vec::new(alloc);
    for at in start..end {
        put_entry(alloc, p, levels, full, array, at, &mut made)?;
    }
    Ok(made)
}

/// What is shown in an array where so many levels are left.
#[cycle(nesting)]
fn nested(
    alloc: Global,
    p: &Paging,
    page: u64,
    levels: u32,
    full: &Option<Bytes>,
    array: &PhpArray,
) -> Result<Vec<Property>, Memory>
    ensures made { IfOk result (λ made. made.items ≡
        spec.nested p.now levels full.now (spec.page_of page p.now.children array.now.pairs)) }
    ensures keyed { OnOk result (AreKeyed p.now.children page levels array.now.pairs) }
{
    if levels == 0 {
        return Ok(Vec::new(alloc));
    }
    let start = page_start(array, page, p.children);
    let end = page_end(array, start, p.children);
    entries(alloc, p, levels - 1, full, array, start, end)
}

/// What is shown of a value with this full name, of whose own entries this page is shown.
#[cycle(nesting)]
fn shape(
    alloc: Global,
    p: &Paging,
    page: u64,
    levels: u32,
    full: &Option<Bytes>,
    value: &Value,
) -> Result<Shape, Memory>
    ensures made { IfOk result (λ s. s ≡
        spec.shape_of p.now page (spec.nested p.now levels full.now) (data_of value.now)) }
    ensures keyed { OnOk result (IsKeyed p.now.children page levels (data_of value.now)) }
{
    match value {
        Value::Null => Ok(Shape::Null),
        Value::Bool(b) => Ok(Shape::Bool(*b)),
        Value::Int(n) => Ok(Shape::Int(*n)),
        Value::Text(bytes) => Ok(Shape::Text {
            size: bytes.len() as u64,
            front: front(alloc, bytes.as_slice(), p.bytes)?,
        }),
        Value::Array(array) => Ok(Shape::Array {
            count: array.len() as u64,
            page,
            pagesize: p.children,
            nested: Items::of(nested(alloc, p, page, levels, full, array)?),
        }),
    }
}

/// The property of a value with these names.
pub(crate) fn property_of(
    alloc: Global,
    p: &Paging,
    name: Option<Bytes>,
    fullname: Option<Bytes>,
    value: &Value,
) -> Result<Property, Memory>
    ensures made { IfOk result (λ made. made ≡ spec.property_of p.now name fullname (data_of value.now)) }
    ensures keyed { OnOk result (IsKeyed p.now.children p.now.page p.now.depth (data_of value.now)) }
{
    let shape = shape(alloc, p, p.page, p.depth, &fullname, value)?;
    Ok(Property {
        name,
        fullname,
        shape,
    })
}

/// A property without names.
fn bare(shape: Shape) -> Property
    ensures { result ≡ record { name = None; fullname = None; shape = shape } }
{
    Property {
        name: None,
        fullname: None,
        shape,
    }
}

/// The property that an evaluation shows of its value: it has no name, and its entries have no full name.
pub fn shown(alloc: Global, value: &Value, p: &Paging) -> Result<Property, Memory>
    ensures made { IfOk result (λ made. made ≡ spec.shown p.now (data_of value.now)) }
    // Memory is taken only for a text and for an array.
    ensures memory { OnErr result (spec.is_copied (data_of value.now) ≡ true) }
{
    match value {
        Value::Null => Ok(bare(Shape::Null)),
        Value::Bool(b) => Ok(bare(Shape::Bool(*b))),
        Value::Int(n) => Ok(bare(Shape::Int(*n))),
        Value::Text(_) => property_of(alloc, p, None, None, value),
        Value::Array(_) => property_of(alloc, p, None, None, value),
    }
}

/// The property of the value at a path in a context.
fn property_at(
    alloc: Global,
    id: u32,
    path: &Path,
    p: &Paging,
    value: &Value,
) -> Result<Property, Memory>
    ensures made { IfOk result (λ made. made ≡ spec.path_property id path.now p.now (data_of value.now)) }
    ensures keyed { OnOk result (IsKeyed p.now.children p.now.page p.now.depth (data_of value.now)) }
{
    let name = own_name(alloc, id, path)?;
    let fullname = full_name(alloc, id, path)?;
    property_of(alloc, p, Some(name), Some(fullname), value)
}

/// The property of what stands at a path in a context at a level; level 0 is the top frame.
///
/// The code is 301 exactly where the level is not below the number of frames, else 302 exactly where there is no
/// context with this id, else 300 exactly where nothing stands at the path.
pub fn property(
    alloc: Global,
    state: &State,
    level: u32,
    id: u32,
    path: &Path,
    p: &Paging,
) -> Result<Property, ViewError>
    ensures answer { Answers (λ made. made) result (spec.property_at state.now level id path.now p.now) }
    // What stands in it at any depth is what is shown of its own path.
    ensures paths { IfOk result (HasPaths state.now level id path.now p.now) }
{
    let value = value_at(state, level, id, path)?;
    Ok(property_at(alloc, id, path, p, value)?)
}
