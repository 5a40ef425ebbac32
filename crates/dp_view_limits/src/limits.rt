//! What is shown in so many bytes.

ghost use Rattle.std.specs.Prelude.{◌≡◌, true, Err, Some, IfOk};
ghost use Rattle.dp_state.specs.declared.moments.Path.{Path as NamedPath};
ghost use Rattle.dp_value.specs.Value.{data_of};
ghost use Rattle.dp_view.specs.Answers.{Answers, AnswersAfter};
ghost use Rattle.dp_view.specs.Named.{named_path as path_of_name};
ghost use Rattle.dp_view.specs.Children.{AreOfVariables, HasPaths};
ghost use Rattle.dp_view.specs.Properties.{is_copied};
ghost use Rattle.dp_view.specs.NameReader.{path_at};
ghost use Rattle.dp_view_limits.specs.Limits as spec;
ghost use Rattle.dp_view_limits.specs.inner.AtPaths.{limited_at};

use crate::sizes::{property_fits, shown_fits, variables_fit};
use dp_bytes::Items;
use dp_packet::{ErrorCode, Property};
use dp_state::{Path, State};
use dp_tree::Bundle;
use dp_value::Value;
use dp_view::{Paging, ViewError, context, named_path, property, shown, shown_variables, value_at};
use std::alloc::Global;

/// The property of what stands at a path, in at most so many bytes.
fn property_within(
    alloc: Global,
    state: &State,
    level: u32,
    id: u32,
    path: &Path,
    p: &Paging,
    most: u32,
) -> Result<Property, ViewError>
    ensures answer { Answers (λ made. made) result (limited_at state.now level id path.now p.now most) }
    ensures paths { IfOk result (HasPaths state.now level id path.now p.now) }
{
    let value = value_at(state, level, id, path)?;
    if property_fits(id, path, p, value, most) {
        property(alloc, state, level, id, path, p)
    } else {
        Err(ViewError::Code(ErrorCode::CannotGetProperty))
    }
}

/// The property that a command asks for by a name, in a context at a level, if its element has at most so many bytes in
/// the text of a packet; level 0 is the top frame. DBGp 1.0, "property_get".
///
/// The code is 301 exactly where the level is not below the number of frames, else 302 exactly where there is no
/// context with this id, else 300 exactly where the bytes are no name, nothing stands there, or the element has more
/// bytes. That it has more is found before it is made, and by looking at no more of the value than that many bytes and
/// one property more show.
pub fn limited_property(
    alloc: Global,
    state: &State,
    level: u32,
    id: u32,
    name: &[u8],
    p: &Paging,
    most: u32,
) -> Result<Property, ViewError>
    ensures answer { AnswersAfter (λ made. made) result (path_of_name state.now level id name.now)
        (spec.limited_property state.now level id name.now p.now most) }
    // What stands in it at any depth is what is shown of its own path.
    ensures paths { IfOk result (λ made. (path : NamedPath) → path_at name.now ≡ Some path
        → HasPaths state.now level id path p.now made) }
{
    let path = named_path(alloc, state, level, id, name)?;
    property_within(alloc, state, level, id, &path, p, most)
}

/// The properties of the variables of a context at a level, in the order of their first assignment, or of its constants
/// in that of their definition, if their elements have at most so many bytes together in the text of a packet; level 0
/// is the top frame. DBGp 1.0, "context_get".
///
/// The code is 301 exactly where the level is not below the number of frames, else 302 exactly where there is no
/// context with this id, else 300 exactly where the elements have more bytes. That they have more is found without
/// memory.
pub fn limited_context(
    alloc: Global,
    bundle: &Bundle,
    state: &State,
    level: u32,
    id: u32,
    p: &Paging,
    most: u32,
) -> Result<Items<Property>, ViewError>
    ensures answer { Answers (λ made. made) result (spec.limited_context state.now level id p.now most) }
    // What stands in it at any depth is what is shown of its own path.
    ensures paths { IfOk result (AreOfVariables state.now level id p.now) }
{
    let variables = shown_variables(state, level, id)?;
    if variables_fit(id, p, &state.globals, variables, most) {
        context(alloc, bundle, state, level, id, p)
    } else {
        Err(ViewError::Code(ErrorCode::CannotGetProperty))
    }
}

/// The property that an evaluation shows of its value, if its element has at most so many bytes in the text of a
/// packet: 300 exactly where it has more, which is found without memory.
pub fn limited_shown(
    alloc: Global,
    value: &Value,
    p: &Paging,
    most: u32,
) -> Result<Property, ViewError>
    ensures answer { Answers (λ made. made) result (spec.limited_shown (data_of value.now) p.now most) }
    // Memory is taken only for a text and for an array.
    ensures memory { result ≡ Err ViewError.Memory → is_copied (data_of value.now) ≡ true }
{
    if shown_fits(p, value, most) {
        Ok(shown(alloc, value, p)?)
    } else {
        Err(ViewError::Code(ErrorCode::CannotGetProperty))
    }
}
