//! What holds of command lines, whatever the bytes are.

ghost use Rattle.std.specs.Prelude.{◌≡◌, ◌↔◌, List, ℕ, Some};
ghost use Rattle.base64.specs.GeneralPurpose.{IsBytes};
ghost use Rattle.dp_command.specs.Grammar.{spelt};
ghost use Rattle.dp_command.specs.Lines.{line_of};

use crate::line::Line;

/// The line that bytes spell is the one that the grammar has for them, and where the grammar has
/// none, there is none. So bytes spell one line at most.
pub fn line_of_is_spelt()
    ensures { (bytes : List ℕ) (line : Line) → IsBytes bytes
        → (line_of bytes ≡ Some line) ↔ spelt bytes line }
{}
