//! The contexts, and the variables that they show.

ghost use Rattle.std.specs.Prelude.{◌≡◌, ◌++◌, length, IfOk, OnOk};
ghost use Rattle.std.specs.List.{flat_map, IsDistinct};
ghost use Rattle.std.specs.Map.{keys_of};
ghost use Rattle.std.specs.Str.{bytes_eq};
ghost use Rattle.dp_value.specs.Value.{data_of};
ghost use Rattle.dp_view.specs.Answers.{Answers};
ghost use Rattle.dp_view.specs.Places as places;
ghost use Rattle.dp_view.specs.Properties as spec;
ghost use Rattle.dp_view.specs.Children.{AreOfVariables};
ghost use Rattle.dp_view.specs.inner.Keyed.{IsKeyed, VariableIsKeyed, VariablesAreKeyed};
ghost use Rattle.dp_view.specs.inner.Additions.{variables_at};

use crate::Memory;
use crate::errors::ViewError;
use crate::names::variable_name;
use crate::paging::Paging;
use crate::places::{shown_variables, slot_value};
use crate::properties::property_of;
use dp_bytes::{Bytes, Items};
use dp_packet::Property;
use dp_state::{State, Vars};
use dp_tree::Bundle;
use dp_value::Value;
use std::alloc::Global;

/// A context by its name and id.
fn named(alloc: Global, name: &[u8], id: u32) -> Result<(Bytes, u32), Memory>
    ensures { IfOk result (λ c. c ≡ (name.now, id)) }
{
    Ok((Bytes::from_slice(alloc, name)?, id))
}

/// The contexts by their names and ids: `Locals` with 0, `Globals` with 1, and `User defined constants` with 2.
fn all_contexts(alloc: Global) -> Result<Items<(Bytes, u32)>, Memory>
    ensures { IfOk result (λ all. all ≡ places.contexts) }
{
    let mut all = Vec::new(alloc);
    all.push(named(alloc, b"Locals", 0)?)?;
    all.push(named(alloc, b"Globals", 1)?)?;
    all.push(named(alloc, b"User defined constants", 2)?)?;
    Ok(Items::of(all))
}

/// The contexts by their names and ids: the variables of a frame, the global variables, and the constants that the
/// program has defined.
pub fn contexts(alloc: Global) -> Result<Items<(Bytes, u32)>, ViewError>
    ensures { Answers (λ all. all) result (Ok places.contexts) }
{
    Ok(all_contexts(alloc)?)
}

/// The property of a variable of a context with this value.
fn variable(
    alloc: Global,
    id: u32,
    p: &Paging,
    name: &[u8],
    value: &Value,
) -> Result<Property, Memory>
    ensures made { IfOk result (λ made. made ≡
        spec.path_property id (spec.variable_path name.now) p.now (data_of value.now)) }
    ensures keyed { OnOk result (IsKeyed p.now.children p.now.page p.now.depth (data_of value.now)) }
{
    let own = variable_name(alloc, id, name)?;
    let full = variable_name(alloc, id, name)?;
    property_of(alloc, p, Some(own), Some(full), value)
}

/// Puts the property of the variable at a position behind others, if it has a value.
fn put_variable(
    alloc: Global,
    id: u32,
    p: &Paging,
    globals: &Vars,
    variables: &Vars,
    at: usize,
    made: &mut Vec<Property>,
) -> Result<(), Memory>
    ensures made { OnOk result (made.new.items ≡
        made.old.items ++ variables_at id p.now globals.now variables.now at) }
    ensures keyed { OnOk result (VariableIsKeyed p.now globals.now variables.now at) }
{
    if let Some((name, slot)) = variables.pair(at) {
        if let Some(value) = slot_value(globals, name, slot) {
            made.push(variable(alloc, id, p, name.as_slice(), value)?)?;
        }
    }
    Ok(())
}

/// The properties of the variables that have a value, in the order of the variables.
fn all_variables(
    alloc: Global,
    id: u32,
    p: &Paging,
    globals: &Vars,
    variables: &Vars,
) -> Result<Items<Property>, Memory>
    ensures made { IfOk result (λ made. made ≡ flat_map (spec.variable_shown id p.now globals.now) variables.now) }
    ensures keyed { OnOk result (VariablesAreKeyed p.now globals.now variables.now (length variables.now)) }
    ensures distinct { IsDistinct bytes_eq (keys_of variables.now) }
{
    let mut made = Vec::new(alloc);
    for at in 0..variables.len() {
        put_variable(alloc, id, p, globals, variables, at, &mut made)?;
    }
    Ok(Items::of(made))
}

/// The properties of the variables of a context at a level, in the order of their first assignment, or of the
/// constants, in that of their definition; level 0 is the top frame. A variable that is bound shows the value of the
/// global variable of its name. Each value is shown as `p` asks for it, so each array shows the same page.
///
/// The code is 301 exactly where the level is not below the number of frames, else 302 exactly where there is no
/// context with this id.
pub fn context(
    alloc: Global,
    // The program of the state, as the other views take it. No property needs it.
    _bundle: &Bundle,
    state: &State,
    level: u32,
    id: u32,
    p: &Paging,
) -> Result<Items<Property>, ViewError>
    ensures answer { Answers (λ made. made) result (spec.context_at state.now level id p.now) }
    // What stands in it at any depth is what is shown of its own path.
    ensures paths { IfOk result (AreOfVariables state.now level id p.now) }
{
    let variables = shown_variables(state, level, id)?;
    Ok(all_variables(alloc, id, p, &state.globals, variables)?)
}
