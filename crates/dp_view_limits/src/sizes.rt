//! Whether properties fit into so many bytes, which is counted before they are made, from one byte more down. No call
//! takes memory.

ghost use Rattle.std.specs.Prelude.{◌≡◌, nat_le};
ghost use Rattle.std.specs.List.{flat_map};
ghost use Rattle.dp_value.specs.Value.{data_of};
ghost use Rattle.dp_view.specs.Properties as properties;
ghost use Rattle.dp_view_limits.specs.Limits.{properties_size, property_size};

use crate::measures::{after_path, after_shown, after_variables};
use dp_state::{Path, Vars};
use dp_value::Value;
use dp_view::Paging;

/// Whether what an evaluation shows of a value has at most so many bytes.
pub(crate) fn shown_fits(p: &Paging, value: &Value, most: u32) -> bool
    ensures { result ≡ nat_le (property_size (properties.shown p.now (data_of value.now))) most }
{
    after_shown(p, value, u64::from(most) + 1) > 0
}

/// Whether the property of the value at a path in a context has at most so many bytes.
pub(crate) fn property_fits(id: u32, path: &Path, p: &Paging, value: &Value, most: u32) -> bool
    ensures { result ≡
        nat_le (property_size (properties.path_property id path.now p.now (data_of value.now))) most }
{
    after_path(id, path, p, value, u64::from(most) + 1) > 0
}

/// Whether the properties of the variables of a context have at most so many bytes.
#[tactic(auto, using(crate::proofs::Written::variables_are))]
pub(crate) fn variables_fit(
    id: u32,
    p: &Paging,
    globals: &Vars,
    variables: &Vars,
    most: u32,
) -> bool
    ensures { result ≡ nat_le
        (properties_size (flat_map (properties.variable_shown id p.now globals.now) variables.now)) most }
{
    after_variables(id, p, globals, variables, u64::from(most) + 1) > 0
}
