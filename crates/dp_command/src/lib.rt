//! Command lines of DBGp: read from their bytes, written in one form, and taken as typed commands.
#![tactic(auto)]

mod addressee;
mod command;
mod errors;
mod laws;
mod line;
mod line_commands;
mod line_reader;
mod line_writer;
mod names;
mod numbers;
mod options;
mod parts;
mod refusals;
mod slots;
mod sort;
mod values;

pub use addressee::Addressee;
pub use command::{
    BreakpointAction, BreakpointRequest, BreakpointSet, BreakpointUpdate, Command, Continuation,
    Finish, LookRequest, PropertyPlace, PropertySet, Request, SessionRequest, SourceRange, Stream,
    StreamMode, WriteRequest,
};
pub use dp_bytes::Memory;
pub use errors::{CommandError, LineError, Refusal};
pub use laws::line_of_is_spelt;
pub use line::Line;
pub use line_reader::{read_line, reread};
pub use line_writer::write_line;
pub use names::CommandName;
pub use numbers::number_of;
pub use options::{has_duplicate, option_value};
pub use refusals::{fits_row, id_of};
