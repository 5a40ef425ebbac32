//! The names of commands.

ghost use Rattle.std.specs.Prelude.{◌≡◌, Some};
ghost use Rattle.std.specs.List.{find};
ghost use Rattle.std.specs.Str.{bytes_eq};
ghost use Rattle.dp_command.specs.Names as spec;

/// A command of DBGp 1.0 that is known here, by its name.
#[derive(Clone, Copy, Debug, PartialEq, Eq)]
pub enum CommandName {
    Status,
    FeatureGet,
    FeatureSet,
    Run,
    StepInto,
    StepOver,
    StepOut,
    Stop,
    Detach,
    BreakpointSet,
    BreakpointGet,
    BreakpointRemove,
    BreakpointUpdate,
    BreakpointList,
    StackDepth,
    StackGet,
    ContextNames,
    ContextGet,
    PropertyGet,
    PropertyValue,
    PropertySet,
    Source,
    Stdout,
    Stderr,
    Eval,
}

const EVERY: [CommandName; 25] = [
    CommandName::Status,
    CommandName::FeatureGet,
    CommandName::FeatureSet,
    CommandName::Run,
    CommandName::StepInto,
    CommandName::StepOver,
    CommandName::StepOut,
    CommandName::Stop,
    CommandName::Detach,
    CommandName::BreakpointSet,
    CommandName::BreakpointGet,
    CommandName::BreakpointRemove,
    CommandName::BreakpointUpdate,
    CommandName::BreakpointList,
    CommandName::StackDepth,
    CommandName::StackGet,
    CommandName::ContextNames,
    CommandName::ContextGet,
    CommandName::PropertyGet,
    CommandName::PropertyValue,
    CommandName::PropertySet,
    CommandName::Source,
    CommandName::Stdout,
    CommandName::Stderr,
    CommandName::Eval,
];

/// The first of these commands whose name the text is.
fn first_of(names: &[CommandName], text: &[u8]) -> Option<CommandName>
    ensures { result ≡ find (λ n. bytes_eq (spec.text_of n) text.now) names.now }
{
    for name in names {
        if name.text() == text {
            return Some(*name);
        }
    }
    None
}

impl CommandName {
    /// The command of this name. Takes no memory.
    #[tactic(auto, unfolding(crate::specs::Names::name_of))]
    pub fn of(text: &[u8]) -> Option<CommandName>
        ensures { result ≡ spec.name_of text.now }
    {
        first_of(&EVERY, text)
    }

    /// Its name in a command line. Takes no memory.
    #[tactic(auto, using(crate::proofs::Spellings::named))]
    pub fn text(self) -> &'static [u8]
        ensures text { result.now ≡ spec.text_of self }
        // No other command has this name.
        ensures own { spec.name_of (spec.text_of self) ≡ Some self }
    {
        match self {
            CommandName::Status => b"status",
            CommandName::FeatureGet => b"feature_get",
            CommandName::FeatureSet => b"feature_set",
            CommandName::Run => b"run",
            CommandName::StepInto => b"step_into",
            CommandName::StepOver => b"step_over",
            CommandName::StepOut => b"step_out",
            CommandName::Stop => b"stop",
            CommandName::Detach => b"detach",
            CommandName::BreakpointSet => b"breakpoint_set",
            CommandName::BreakpointGet => b"breakpoint_get",
            CommandName::BreakpointRemove => b"breakpoint_remove",
            CommandName::BreakpointUpdate => b"breakpoint_update",
            CommandName::BreakpointList => b"breakpoint_list",
            CommandName::StackDepth => b"stack_depth",
            CommandName::StackGet => b"stack_get",
            CommandName::ContextNames => b"context_names",
            CommandName::ContextGet => b"context_get",
            CommandName::PropertyGet => b"property_get",
            CommandName::PropertyValue => b"property_value",
            CommandName::PropertySet => b"property_set",
            CommandName::Source => b"source",
            CommandName::Stdout => b"stdout",
            CommandName::Stderr => b"stderr",
            CommandName::Eval => b"eval",
        }
    }
}
