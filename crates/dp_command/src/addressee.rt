//! Whom a reply answers.

ghost use Rattle.std.specs.Prelude.{◌≡◌, ◌≤◌, [], length, IfOk};
ghost use Rattle.dp_command.specs.Grammar.{command_name_limit};
ghost use Rattle.dp_command.specs.Refusals.{id_limit};

use crate::line::Line;
use crate::refusals::id_of;
use dp_bytes::{Bytes, Memory};
use std::alloc::Global;

/// The name of a command and its transaction id, as the reply repeats them.
#[derive(Debug, Drop)]
pub struct Addressee {
    pub command: Bytes,
    pub id: Bytes,
    ghost command_bound: { length command ≤ command_name_limit },
    ghost id_bound: { length id ≤ id_limit },
}

impl Addressee {
    ghost use Rattle.dp_command.specs.Refusals as spec;

    /// The addressee of a reply to bytes that spell no line: both parts are empty. Takes no memory.
    pub fn nobody(alloc: Global) -> Addressee
        ensures command { result.command ≡ [] }
        ensures id { result.id ≡ [] }
    {
        Addressee {
            command: Bytes::of(Vec::new(alloc)),
            id: Bytes::of(Vec::new(alloc)),
        }
    }

    /// The addressee of a reply to a line: its command's name, and its transaction id if it has one.
    pub fn of(alloc: Global, line: &Line) -> Result<Addressee, Memory>
        requires { length line.now.name ≤ command_name_limit }
        ensures command { IfOk result (λ to. to.command ≡ line.now.name) }
        ensures id { IfOk result (λ to. to.id ≡ spec.id_of line.now) }
    {
        Ok(Addressee {
            command: line.name.try_clone()?,
            id: Bytes::from_slice(alloc, id_of(line))?,
        })
    }
}
