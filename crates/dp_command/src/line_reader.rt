//! Reading a whole line.

ghost use Rattle.std.specs.Prelude.{◌≡◌, ◌≤◌, length, Err, IfOk, MatchResult};
ghost use Rattle.std.specs.List.{AllByRecursion};
ghost use Rattle.dp_command.specs.Grammar.{spelt};
ghost use Rattle.dp_command.specs.inner.Parts.{parts_at, seen_text};
ghost use Rattle.dp_command.specs.Lines.{Gives};
ghost use Rattle.dp_command.specs.Canonical.{IsWellFormed};
ghost use Rattle.dp_command.specs.Lines.{line_of};

use crate::errors::LineError;
use crate::line::Line;
use crate::line_writer::write_line;
use crate::parts::{ending, name};
use crate::values::{options, payload};
use dp_bytes::{Bytes, Items};
use std::alloc::Global;

/// The name, the options, and the text of the payload where there is one.
#[tactic(auto, unfolding(crate::specs::inner::Parts::parts_at))]
fn parts(
    alloc: Global,
    bytes: &[u8],
) -> Result<(Bytes, Items<(u8, Bytes)>, Option<&[u8]>), LineError>
    ensures { Gives (λ p. (p.0, p.1, seen_text (λ t. t.now) p.2)) result (parts_at bytes.now) }
{
    let (name, rest) = name(bytes)?;
    let (options, rest) = options(alloc, rest)?;
    let text = ending(rest)?;
    Ok((Bytes::from_slice(alloc, name)?, options, text))
}

/// Reads the line that the bytes spell, its payload decoded; refuses bytes that spell none.
#[tactic(auto, unfolding(crate::specs::Lines::line_of))]
fn line(alloc: Global, bytes: &[u8]) -> Result<Line, LineError>
    ensures { Gives (λ line. line) result (line_of bytes.now) }
{
    let (name, options, text) = parts(alloc, bytes)?;
    match text {
        None => Ok(Line {
            name,
            options,
            payload: None,
        }),
        Some(text) => {
            let payload = payload(alloc, text)?;
            Ok(Line {
                name,
                options,
                payload: Some(payload),
            })
        }
    }
}

/// The line that the bytes spell, all of the bytes. DBGp 1.0, "Command Line Format".
pub fn read_line(alloc: Global, bytes: &[u8]) -> Result<Line, LineError>
    // What is read is the line that the bytes spell, as a function.
    ensures read { Gives (λ line. line) result (line_of bytes.now) }
    // What is read is spelt so.
    ensures found { IfOk result (λ line. spelt bytes.now line) }
    // No value is longer than the bytes.
    ensures short { IfOk result (λ line. AllByRecursion (λ o. length o.1 ≤ length bytes.now) line.options) }
    // Each line that is read is well formed.
    ensures formed { IfOk result (λ line. IsWellFormed line) }
    // What is spelt so is read, unless memory runs out.
    ensures only { (line : Line) → spelt bytes.now line →
        MatchResult result (λ read. read ≡ line) (λ e. e ≡ LineError.Memory) }
    // Bytes are refused only where they spell no line.
    ensures parse { result ≡ Err LineError.Parse → (line : Line) → spelt bytes.now line → ⊥ }
{
    line(alloc, bytes)
}

/// A line that is written and read again is the same line.
pub fn reread(alloc: Global, line: &Line) -> Result<Line, LineError>
    requires { IsWellFormed line.now }
    ensures { MatchResult result (λ read. read ≡ line.now) (λ e. e ≡ LineError.Memory) }
{
    let text = write_line(alloc, line)?;
    read_line(alloc, text.as_slice())
}
