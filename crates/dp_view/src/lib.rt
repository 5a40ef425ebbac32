//! What a debugger shows of a state: the stack, the variables of its frames, and what stands in them.
#![tactic(auto)]

mod errors;
mod laws;
mod name_reader;
mod named;
mod names;
mod paging;
mod places;
mod properties;
mod sorts;
mod source;
mod spelling;
mod stacks;
mod values;
mod variables;

pub use dp_bytes::Memory;
pub use errors::ViewError;
pub use laws::{full_names_are_read_back, names_have_one_path};
pub use name_reader::read_name;
pub use named::{named_path, named_property, named_value};
pub use names::sigil;
pub use paging::Paging;
pub use places::{shown_variables, slot_value, value_at};
pub use properties::{page_end, page_start, property, shown};
pub use source::source_lines;
pub use stacks::stack;
pub use values::{ShownValue, value_shown};
pub use variables::{context, contexts};
