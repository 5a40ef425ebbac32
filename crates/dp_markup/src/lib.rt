//! The markup of DBGp packets: trees of elements, read from their bytes and written as bytes.
#![tactic(auto)]

mod attributes;
mod classes;
mod documents;
mod elements;
mod errors;
mod found;
mod input;
mod kept_names;
mod lists;
mod outputs;
mod reader;
mod references;
mod sought;
mod states;
mod tree;
mod writer;

pub use attributes::same_text;
pub use dp_bytes::Memory;
pub use errors::MarkupError;
pub use outputs::{Counter, Output, TextOutput, put_attribute, put_escaped};
pub use reader::{head_attribute, level_limit, read, reread};
pub use states::StartTag;
pub use tree::{Element, Node};
pub use writer::{put_attributes, put_close, put_open, write};
