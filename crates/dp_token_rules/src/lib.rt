//! What a grammar over tokens is made of: sorts of tokens, the cursor, and lists with commas. Rules, readers and their
//! laws are those of dp_grammar; here what comes next is known by its sort. It is the layer between the tokens and the
//! grammar: no tree stands here.
#![tactic(auto)]

mod cursor;
mod lists;
mod terminal;

pub use cursor::{Tokens, enter};
pub use dp_grammar::Refusal;
pub use dp_lexer::Word;
pub use lists::{Piece, any_items, any_plain_items, many, none, plain_items, some_items, with};
pub use terminal::{Terminal, is_superglobal};
