//! The values of the language and the calls on them: texts, keys, ordered arrays, and writes at any depth.
#![tactic(auto)]

mod appends;
mod columns;
mod conditions;
mod copies;
mod errors;
mod identity;
mod kept;
mod key;
mod keys_of;
mod owners;
mod refusals;
mod removals;
mod rows;
mod value;
mod weights;
mod writes;

pub use appends::append_at;
pub use conditions::truthy;
pub use errors::{CallError, ValueError, WriteError};
pub use identity::same;
pub use key::Key;
pub use keys_of::key_of;
pub use removals::remove_at;
pub use value::{Columns, PhpArray, Value, WEIGHT_LIMIT};
pub use weights::{is_beyond, weight};
pub use writes::write_at;
