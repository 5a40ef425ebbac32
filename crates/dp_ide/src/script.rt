//! A script.

use crate::instruction::Instruction;
use dp_bytes::Items;
use std::marker::Model;

/// A script of an IDE. Contracts see the list of its instructions, which some bytes spell.
#[derive(Debug, Drop)]
pub struct Script {
    pub(crate) instructions: Items<Instruction>,
}

impl Model for Script {
    ghost use Rattle.std.specs.Prelude.{List};
    ghost use Rattle.dp_ide.specs.declared.instruction.Instruction.{Instruction};
    ghost use Rattle.dp_ide.specs.Scripts.{IsOfSomeScript};

    ghost Value = { List Instruction };

    ghost view = { λ s. s.instructions };

    ghost invariant = { λ s. IsOfSomeScript s.instructions };
}

impl Script {
    ghost use Rattle.std.specs.Prelude.{◌≡◌};
    ghost use Rattle.dp_ide.specs.Scripts.{IsOfSomeScript};

    /// The instructions, which some bytes spell. Takes no memory.
    pub fn instructions(&self) -> &[Instruction]
        ensures same { result.now ≡ self.now }
        ensures spelt { IsOfSomeScript self.now }
    {
        self.instructions.as_slice()
    }
}
