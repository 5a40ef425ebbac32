//! Rows as data: what the files of rows hold, and the report of the rows that differ.
//!
//! A file has blocks of lines, with an empty line between two. A block whose first line is `= TITLE` is a row; a block
//! without a title holds for all rows behind it, up to the next such block. Lines that begin with `#` at the head of a
//! block are comments. A field is a line `NAME` or `NAME TEXT`, with the lines of its content below it.
#![tactic(auto)]

mod differences;
mod escapes;
mod fields;
mod files;
mod lines;
mod report;
mod row;

pub use differences::Differences;
pub use escapes::{put_bytes, unescaped};
pub use fields::{Field, at_space, number_of};
pub use files::{RowFile, read_files};
pub use report::Report;
pub use row::{Row, rows_of};
pub use std::alloc::AllocError as Memory;
