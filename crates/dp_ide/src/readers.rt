//! Reading a script.
ghost use Rattle.std.specs.Prelude.{◌≡◌, ◌⊎◌, ℕ, List, IfOk, IfErr, MatchResult};
ghost use Rattle.dp_ide.specs.Scripts.{IsFirstBad, IsScript};
ghost use Rattle.dp_ide.specs.declared.instruction.Instruction.{Instruction as AnyInstruction};
ghost use Rattle.dp_ide.specs.inner.Readers.{Takes};

use crate::acts::act_in;
use crate::errors::IdeError;
use crate::instruction::Instruction;
use crate::lines::is_idle;
use crate::script::Script;
use dp_bytes::{Items, Memory};
use std::alloc::Global;

/// Puts what the line of this number says behind what the lines before it say, where it is one of a script.
fn put_line(
    alloc: Global,
    line: &[u8],
    number: u64,
    said: &mut Vec<Instruction>,
) -> Result<bool, Memory>
    ensures { IfOk result (λ taken. Takes number line.now taken said.old.items said.new.items) }
{
    if is_idle(line) {
        return Ok(true);
    }
    match act_in(alloc, line)? {
        None => Ok(false),
        Some(act) => {
            said.push(Instruction { line: number, act })?;
            Ok(true)
        }
    }
}

/// What all lines say, or the number of the first line that is none of a script.
fn read_lines(alloc: Global, bytes: &[u8]) -> Result<Result<Vec<Instruction>, u64>, Memory>
    ensures { IfOk result (λ read. MatchResult read
        (λ said. IsScript bytes.now said.items
        × ((other : List AnyInstruction) → IsScript bytes.now other → other ≡ said.items))
        (λ line. IsFirstBad bytes.now line)) }
{
    let mut said = Vec::new(alloc);
    let mut number = 0u64;
    for line in bytes.split(|b| *b == b'\n') {
        number += 1;
        if !put_line(alloc, line, number, &mut said)? {
            return Ok(Err(number));
        }
    }
    Ok(Ok(said))
}

impl Script {
    /// The script that the bytes are. A refusal names the first line that is none of a script; they count from 1.
    pub fn read(alloc: Global, bytes: &[u8]) -> Result<Script, IdeError>
        ensures found { IfOk result (λ script. IsScript bytes.now script) }
        // Each script is read, unless memory runs out.
        ensures only { (instructions : List AnyInstruction) → IsScript bytes.now instructions
            → MatchResult result (λ script. script ≡ instructions) (λ e. e ≡ IdeError.Memory) }
        ensures bad { (line : ℕ) → result ≡ Err (IdeError.BadScript line) → IsFirstBad bytes.now line }
        ensures bad_only { (line : ℕ) → IsFirstBad bytes.now line
            → MatchResult result (λ script. ⊥) (λ e. (e ≡ IdeError.BadScript line) ⊎ (e ≡ IdeError.Memory)) }
        ensures refused { IfErr result (λ e. ((line : ℕ) × (e ≡ IdeError.BadScript line)) ⊎ (e ≡ IdeError.Memory)) }
    {
        match read_lines(alloc, bytes)? {
            Ok(said) => Ok(Script {
                instructions: Items::of(said),
            }),
            Err(line) => Err(IdeError::BadScript { line }),
        }
    }
}
