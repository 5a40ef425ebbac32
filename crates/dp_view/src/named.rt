//! What commands ask for by a name.

ghost use Rattle.std.specs.Prelude.{◌≡◌, Some, IfOk};
ghost use Rattle.dp_state.specs.declared.moments.Path.{Path as NamedPath};
ghost use Rattle.dp_view.specs.Answers.{AnswersAfter};
ghost use Rattle.dp_view.specs.Named as spec;
ghost use Rattle.dp_view.specs.Children.{HasPaths};
ghost use Rattle.dp_view.specs.NameReader.{path_at};

use crate::errors::ViewError;
use crate::name_reader::read_name;
use crate::paging::Paging;
use crate::places::{shown_variables, value_at};
use crate::properties::property;
use crate::values::{ShownValue, value_shown};
use dp_packet::Property;
use dp_state::{Path, State};
use std::alloc::Global;

/// The path that bytes name, where there are the level and the context: 301 where there is no such level, else 302
/// where there is no such context, else 300 where the bytes are no name. No refusal takes memory.
pub fn named_path(
    alloc: Global,
    state: &State,
    level: u32,
    id: u32,
    name: &[u8],
) -> Result<Path, ViewError>
    ensures answer { AnswersAfter (λ path. path) result (spec.named_path state.now level id name.now)
        (spec.named_path state.now level id name.now) }
    ensures named { IfOk result (λ path. path_at name.now ≡ Some path) }
{
    match shown_variables(state, level, id) {
        Ok(_) => read_name(alloc, name),
        Err(why) => Err(why),
    }
}

/// The property that a command asks for by a name, in a context at a level; level 0 is the top frame. DBGp 1.0,
/// "property_get".
///
/// The code is 301 exactly where the level is not below the number of frames, else 302 exactly where there is no
/// context with this id, else 300 exactly where the bytes are no name, or nothing stands there.
pub fn named_property(
    alloc: Global,
    state: &State,
    level: u32,
    id: u32,
    name: &[u8],
    p: &Paging,
) -> Result<Property, ViewError>
    ensures answer { AnswersAfter (λ made. made) result (spec.named_path state.now level id name.now)
        (spec.named_property state.now level id name.now p.now) }
    // What stands in it at any depth is what is shown of its own path.
    ensures paths { IfOk result (λ made. (path : NamedPath) → path_at name.now ≡ Some path
        → HasPaths state.now level id path p.now made) }
{
    let path = named_path(alloc, state, level, id, name)?;
    property(alloc, state, level, id, &path, p)
}

/// The value that a command asks for by a name, as `property_value` shows it, and of a text the first bytes, at most
/// `most`, or all. DBGp 1.0, "property_value". The codes are those of [`named_property`].
pub fn named_value(
    alloc: Global,
    state: &State,
    level: u32,
    id: u32,
    name: &[u8],
    most: Option<u64>,
) -> Result<ShownValue, ViewError>
    ensures { AnswersAfter (λ made. made) result (spec.named_path state.now level id name.now)
        (spec.named_value state.now level id name.now most) }
{
    let path = named_path(alloc, state, level, id, name)?;
    let value = value_at(state, level, id, &path)?;
    Ok(value_shown(alloc, value, most)?)
}
