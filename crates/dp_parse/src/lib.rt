//! Files and expressions as trees: exactly the grammar of programs. It is the upper layer of the parser: statements,
//! functions and files, and the calls on bytes, over the rules of dp_token_rules, the expressions of dp_expressions and
//! the trees of dp_tree, which it hands on.
#![tactic(auto)]

mod branches;
mod constants;
mod ended;
mod errors;
mod files;
mod grammar;
mod inside;
mod jumps;
mod levels;
mod loop_statements;
mod names;
mod next_lines;
mod parameters;
mod statements;
mod verdicts;
mod whole;

pub use dp_tree::{
    Arm, Binding, Boxed, Definition, Expression, File, Function, Inclusion, Item, Link, Operator,
    Order, Place, Statement, StatementKind, builtin_of, has_code, is_pure,
};
pub use ended::{Body, Ended, Parts};
pub use errors::ParseError;
pub use next_lines::next_code;
pub use whole::{expressions_are_exact, one_tree, parse_expression, parse_file};
