//! The requests that are answered, and when.

ghost use Rattle.std.specs.Prelude.{◌≡◌};
ghost use Rattle.std.specs.List.{find};
ghost use Rattle.std.specs.Str.{bytes_eq};
ghost use Rattle.dp_dap_messages.specs.Table as spec;

/// A request of the Debug Adapter Protocol that is known here, by its name.
#[derive(Clone, Copy, Debug, PartialEq, Eq)]
pub enum RequestName {
    Initialize,
    Launch,
    ConfigurationDone,
    SetExceptionBreakpoints,
    SetBreakpoints,
    Threads,
    StackTrace,
    Scopes,
    Variables,
    Continue,
    Next,
    StepIn,
    StepOut,
    Evaluate,
    Disconnect,
}

/// Where the gateway stands: before initialize, before the program starts, while it stands, after its end.
#[derive(Clone, Copy, Debug, PartialEq, Eq)]
pub enum Stage {
    New,
    Ready,
    Stopped,
    Over,
}

const EVERY: [RequestName; 15] = [
    RequestName::Initialize,
    RequestName::Launch,
    RequestName::ConfigurationDone,
    RequestName::SetExceptionBreakpoints,
    RequestName::SetBreakpoints,
    RequestName::Threads,
    RequestName::StackTrace,
    RequestName::Scopes,
    RequestName::Variables,
    RequestName::Continue,
    RequestName::Next,
    RequestName::StepIn,
    RequestName::StepOut,
    RequestName::Evaluate,
    RequestName::Disconnect,
];

/// The first of these requests whose name the text is.
fn first_of(names: &[RequestName], text: &[u8]) -> Option<RequestName>
    ensures { result ≡ find (λ n. bytes_eq (spec.text_of n) text.now) names.now }
{
    for name in names {
        if name.text() == text {
            return Some(*name);
        }
    }
    None
}

/// The entry of a row of the table.
fn row(new: bool, ready: bool, stopped: bool, over: bool, stage: Stage) -> bool
    ensures { result ≡ spec.row new ready stopped over stage }
{
    match stage {
        Stage::New => new,
        Stage::Ready => ready,
        Stage::Stopped => stopped,
        Stage::Over => over,
    }
}

impl RequestName {
    /// The request of this name. Takes no memory.
    #[tactic(auto, unfolding(crate::specs::Table::name_of))]
    pub fn of(text: &[u8]) -> Option<RequestName>
        ensures { result ≡ spec.name_of text.now }
    {
        first_of(&EVERY, text)
    }

    /// Its name in a message. Takes no memory.
    pub fn text(self) -> &'static [u8]
        ensures { result.now ≡ spec.text_of self }
    {
        match self {
            RequestName::Initialize => b"initialize",
            RequestName::Launch => b"launch",
            RequestName::ConfigurationDone => b"configurationDone",
            RequestName::SetExceptionBreakpoints => b"setExceptionBreakpoints",
            RequestName::SetBreakpoints => b"setBreakpoints",
            RequestName::Threads => b"threads",
            RequestName::StackTrace => b"stackTrace",
            RequestName::Scopes => b"scopes",
            RequestName::Variables => b"variables",
            RequestName::Continue => b"continue",
            RequestName::Next => b"next",
            RequestName::StepIn => b"stepIn",
            RequestName::StepOut => b"stepOut",
            RequestName::Evaluate => b"evaluate",
            RequestName::Disconnect => b"disconnect",
        }
    }

    /// Whether the stage allows it. Takes no memory.
    pub fn is_allowed(self, stage: Stage) -> bool
        ensures { result ≡ spec.allows self stage }
    {
        match self {
            RequestName::Initialize => row(true, false, false, false, stage),
            RequestName::Launch => row(false, true, false, false, stage),
            RequestName::ConfigurationDone => row(false, true, false, false, stage),
            RequestName::SetExceptionBreakpoints => row(false, true, true, false, stage),
            RequestName::SetBreakpoints => row(false, true, true, false, stage),
            RequestName::Threads => row(false, true, true, true, stage),
            RequestName::StackTrace => row(false, false, true, false, stage),
            RequestName::Scopes => row(false, false, true, false, stage),
            RequestName::Variables => row(false, false, true, false, stage),
            RequestName::Continue => row(false, false, true, false, stage),
            RequestName::Next => row(false, false, true, false, stage),
            RequestName::StepIn => row(false, false, true, false, stage),
            RequestName::StepOut => row(false, false, true, false, stage),
            RequestName::Evaluate => row(false, false, true, false, stage),
            RequestName::Disconnect => row(true, true, true, true, stage),
        }
    }
}
