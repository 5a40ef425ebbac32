//! The tokens of a program text: names, variables, numbers, texts, keywords and operators, each with its place and
//! line.
#![tactic(auto)]

mod class;
mod comments;
mod errors;
mod fault;
mod keywords;
mod laws;
mod lexer;
mod names;
mod numbers;
mod operators;
mod pieces;
mod quotes;
mod reserved;
mod spelling;
mod token;

pub use errors::LexError;
pub use fault::Fault;
pub use laws::tokens_are_exact;
pub use lexer::{lex, lex_expression, line_feeds};
pub use names::{NAME_LIMIT, is_given};
pub use reserved::is_reserved;
pub use spelling::Spelling;
pub use token::{Token, TokenKind, Word};
