//! The trees of programs, their files and functions by name and number, and what can be said of trees alone. Nothing
//! here knows of tokens or of how a tree is spelled.
#![tactic(auto)]

mod boxed;
mod builtins;
mod bundle;
mod doubles;
mod files;
mod indexed;
mod lines;
mod names;
mod operators;
mod purity;
mod tree;

pub use boxed::Boxed;
pub use builtins::builtin_of;
pub use bundle::{Bundle, BundleFile, FILE_COUNT_LIMIT, FILE_LIMIT, FILE_NAME_LIMIT, FunctionRef};
pub use doubles::first_double;
pub use indexed::Files;
pub use lines::has_code;
pub use names::AnyCase;
pub use operators::{BinaryOp, Builtin, Native, UnaryOp};
pub use purity::is_pure;
pub use tree::{
    Arm, Binding, Definition, Expression, File, Function, Inclusion, Item, Link, Operator, Order,
    Place, Statement, StatementKind,
};
