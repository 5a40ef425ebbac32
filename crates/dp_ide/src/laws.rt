//! What holds of messages and of the ends of a player.
ghost use Rattle.std.specs.Prelude.{◌≡◌, ℕ, List, IsSome, Result, true};
ghost use Rattle.dp_outside.specs.Changes.{Change};
ghost use Rattle.dp_ide.specs.declared.errors.IdeError.{IdeError};
ghost use Rattle.dp_ide.specs.declared.heard.Message.{Message};
ghost use Rattle.dp_ide.specs.declared.instruction.Instruction.{Instruction};
ghost use Rattle.dp_ide.specs.Messages.{IsMessage};
ghost use Rattle.dp_ide.specs.Plays.{Ends, is_verdict};

/// A text has at most one message.
pub fn one_message()
    ensures { (text : List ℕ) (one other : Message) → IsMessage text one → IsMessage text other → one ≡ other }
{}

/// What was read decides how a script ends, where no fault and no lack of memory cuts it short: of a source that tells
/// its bytes there is one such end.
pub fn one_end()
    ensures { (script : List Instruction) (one other : Result (Unit {0}) IdeError)
        (source sink out other_sink other_out : Change) → IsSome source.told_before
        → is_verdict one ≡ true → is_verdict other ≡ true
        → Ends script one source sink out → Ends script other source other_sink other_out → one ≡ other }
{}
