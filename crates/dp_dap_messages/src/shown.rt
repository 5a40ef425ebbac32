//! How values, variables, frames and scopes are shown.

ghost use Rattle.std.specs.Prelude.{◌≡◌, ◌≤◌, ◌<◌, ◌+◌, ◌∷◌, ◌++◌, [], IfOk, OnOk};
ghost use Rattle.std.specs.Prelude.{codes, decimal, length, map, unwrap_or};
ghost use Rattle.serde_json.specs.View.{view};
ghost use Rattle.dp_file_uris.specs.Files as uris;
ghost use Rattle.dp_dap_messages.specs.Values as spec;

use crate::lines::Place;
use crate::messages::php;
use dp_bytes::{Bytes, Memory};
use dp_file_uris::decoded;
use dp_packet::{Property, Shape, StackLine};
use serde_json::{Value, json};
use std::alloc::Global;

/// What each file's URI begins with.
const URI_FRONT: &[u8] = b"file:///";

/// The type of a value.
fn type_name(shape: &Shape) -> &'static str
    ensures { result.now ≡ spec.type_name shape.now }
{
    match shape {
        Shape::Null => "null",
        Shape::Bool(_) => "bool",
        Shape::Int(_) => "int",
        Shape::Text { size: _, front: _ } => "string",
        Shape::Array {
            count: _,
            page: _,
            pagesize: _,
            nested: _,
        } => "array",
    }
}

/// A text between quotes, as it is.
fn text_between(alloc: Global, front: &[u8]) -> Result<Bytes, Memory>
    ensures { IfOk result (λ text. text ≡ 34 ∷ (front.now ++ 34 ∷ [])) }
{
    let mut text = Vec::new(alloc);
    text.push(b'"')?;
    text.extend_from_slice(front)?;
    text.push(b'"')?;
    Ok(Bytes::of(text))
}

/// How many entries an array has.
fn count_text(alloc: Global, count: u64) -> Result<Bytes, Memory>
    ensures { IfOk result (λ text. text ≡ codes "array(" ++ (decimal count ++ codes ")")) }
{
    let digits = count.to_string(alloc)?;
    let mut text = Vec::new(alloc);
    text.extend_from_slice(b"array(")?;
    text.extend_from_slice(digits.as_bytes())?;
    text.push(b')')?;
    Ok(Bytes::of(text))
}

/// The text of a value.
pub fn value_text(alloc: Global, shape: &Shape) -> Result<Bytes, Memory>
    ensures { IfOk result (λ text. text ≡ spec.value_text shape.now) }
{
    match shape {
        Shape::Null => Bytes::from_slice(alloc, b"null"),
        Shape::Bool(true) => Bytes::from_slice(alloc, b"true"),
        Shape::Bool(false) => Bytes::from_slice(alloc, b"false"),
        Shape::Int(number) => {
            let digits = number.to_string(alloc)?;
            Bytes::from_slice(alloc, digits.as_bytes())
        }
        Shape::Text { size: _, front } => text_between(alloc, front.as_slice()),
        Shape::Array {
            count,
            page: _,
            pagesize: _,
            nested: _,
        } => count_text(alloc, *count),
    }
}

/// Whether the entries of a value can be asked for.
fn is_array(shape: &Shape) -> bool
    ensures { result ≡ spec.is_array shape.now }
{
    matches!(
        shape,
        Shape::Array {
            count: _,
            page: _,
            pagesize: _,
            nested: _
        }
    )
}

/// A name, or nothing.
fn bytes_in(name: &Option<Bytes>) -> &[u8]
    ensures { result.now ≡ unwrap_or name.now [] }
{
    match name {
        Some(name) => name.as_slice(),
        None => &[],
    }
}

/// A variable, with the number of its place.
fn variable(alloc: Global, reference: usize, property: &Property) -> Result<Value, Memory>
    ensures { IfOk result (λ value. view value ≡ spec.variable reference property.now) }
{
    let name = php(alloc, bytes_in(&property.name))?;
    let text = value_text(alloc, &property.shape)?;
    let value = php(alloc, text.as_slice())?;
    let kind = type_name(&property.shape);
    json!(in alloc; {
        "name": name, "type": kind, "value": value, "variablesReference": reference
    })
}

/// The number of the place of a variable, behind so many; 0 where it is not listed.
fn reference_of(listed: usize, property: &Property) -> usize
    requires { listed < usize.MAX }
    ensures { result ≡ spec.reference listed property.now }
{
    if is_array(&property.shape) {
        listed + 1
    } else {
        0
    }
}

/// How many places are listed with that of a variable.
fn listed_with(listed: usize, property: &Property) -> usize
    requires { listed < usize.MAX }
    ensures value { result ≡ spec.listed_with listed property.now }
    ensures next { result ≤ listed + 1 }
{
    if is_array(&property.shape) {
        listed + 1
    } else {
        listed
    }
}

/// Variables, where so many places are listed before.
pub fn variables(
    alloc: Global,
    listed: usize,
    properties: &[Property],
) -> Result<Vec<Value>, Memory>
    requires { listed + length properties.now ≤ usize.MAX }
    ensures { IfOk result (λ values. map view values.items ≡ spec.variables listed properties.now) }
{
    let mut values = Vec::new(alloc);
    let mut number = listed;
    for property in properties {
        let reference = reference_of(number, property);
        values.push(variable(alloc, reference, property)?)?;
        number = listed_with(number, property);
    }
    Ok(values)
}

/// Lists the place of a variable, if it has entries.
fn put_place(
    alloc: Global,
    places: &mut Vec<Place>,
    within: &Place,
    property: &Property,
) -> Result<(), Memory>
    ensures { OnOk result (places.new.items ≡ places.old.items ++ spec.place_in within.now property.now) }
{
    if !is_array(&property.shape) {
        return Ok(());
    }
    let name = Bytes::from_slice(alloc, bytes_in(&property.fullname))?;
    places.push(Place {
        level: within.level,
        context: within.context,
        name: Some(name),
    })?;
    Ok(())
}

/// The places of those that have entries.
pub fn places_of(
    alloc: Global,
    within: &Place,
    properties: &[Property],
) -> Result<Vec<Place>, Memory>
    ensures { IfOk result (λ places. places.items ≡ spec.places_of within.now properties.now) }
{
    let mut places = Vec::new(alloc);
    for property in properties {
        put_place(alloc, &mut places, within, property)?;
    }
    Ok(places)
}

/// The name in the URI of a file.
#[tactic(auto, unfolding(dp_file_uris::specs::Files::name_in))]
fn name_in(alloc: Global, uri: &[u8]) -> Result<Bytes, Memory>
    ensures { IfOk result (λ name. name ≡ uris.name_in uri.now) }
{
    if uri.starts_with(URI_FRONT) {
        decoded(alloc, &uri[URI_FRONT.len()..])
    } else {
        Bytes::from_slice(alloc, uri)
    }
}

/// The path of a file, by its URI.
fn path_of(alloc: Global, uri: &[u8]) -> Result<Bytes, Memory>
    ensures { IfOk result (λ path. path ≡ 47 ∷ uris.name_in uri.now) }
{
    let name = name_in(alloc, uri)?;
    let mut path = Vec::new(alloc);
    path.push(b'/')?;
    path.extend_from_slice(name.as_slice())?;
    Ok(Bytes::of(path))
}

/// A frame of the stack.
fn frame(alloc: Global, line: &StackLine) -> Result<Value, Memory>
    ensures { IfOk result (λ value. view value ≡ spec.frame line.now) }
{
    let id = line.level as u64 + 1;
    let number = line.line;
    let name = php(alloc, line.place.as_slice())?;
    let path = path_of(alloc, line.uri.as_slice())?;
    let path = php(alloc, path.as_slice())?;
    json!(in alloc; {
        "column": 1, "id": id, "line": number, "name": name, "source": { "path": path }
    })
}

/// Frames from a first one, at most so many; 0 are all.
#[tactic(auto, using(std::proofs::lemmas::List::drop_min, std::proofs::lemmas::List::take_min))]
fn some_of(first: u32, most: u32, lines: &[StackLine]) -> &[StackLine]
    ensures { result.now ≡ spec.some_of first most lines.now }
{
    let from = (first as usize).min(lines.len());
    let rest = &lines[from..];
    if most == 0 {
        return rest;
    }
    let to = (most as usize).min(rest.len());
    &rest[..to]
}

/// The frames that are asked for.
pub fn frames(
    alloc: Global,
    first: u32,
    most: u32,
    lines: &[StackLine],
) -> Result<Vec<Value>, Memory>
    ensures { IfOk result (λ values. map view values.items ≡ map spec.frame (spec.some_of first most lines.now)) }
{
    let mut values = Vec::new(alloc);
    let asked = some_of(first, most, lines);
    for line in asked {
        values.push(frame(alloc, line)?)?;
    }
    Ok(values)
}

/// A scope, with the number of its place.
fn scope(alloc: Global, reference: usize, name: &[u8]) -> Result<Value, Memory>
    ensures { IfOk result (λ value. view value ≡ spec.scope reference name.now) }
{
    let name = php(alloc, name)?;
    json!(in alloc; {
        "expensive": false, "name": name, "variablesReference": reference
    })
}

/// The scopes of contexts, where so many places are listed before.
pub fn scopes(alloc: Global, listed: usize, contexts: &[(Bytes, u32)]) -> Result<Vec<Value>, Memory>
    requires { listed + length contexts.now ≤ usize.MAX }
    ensures { IfOk result (λ values. map view values.items ≡ spec.scopes listed contexts.now) }
{
    let mut values = Vec::new(alloc);
    let mut number = listed;
    for context in contexts {
        number += 1;
        values.push(scope(alloc, number, context.0.as_slice())?)?;
    }
    Ok(values)
}

/// The places of the contexts of a frame.
pub fn context_places(
    alloc: Global,
    level: u32,
    contexts: &[(Bytes, u32)],
) -> Result<Vec<Place>, Memory>
    ensures { IfOk result (λ places. places.items ≡ spec.context_places level contexts.now) }
{
    let mut places = Vec::new(alloc);
    for context in contexts {
        places.push(Place {
            level,
            context: context.1,
            name: None,
        })?;
    }
    Ok(places)
}
