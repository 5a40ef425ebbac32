//! The states of a session, their reasons, and which commands they allow.
ghost use Rattle.std.specs.Prelude.{◌≡◌, ◌≤◌, length};
ghost use Rattle.dp_engine.specs.inner.Position.{end_of, phase_of, reason_at};
ghost use Rattle.dp_engine.specs.States as spec;

use crate::session::SessionEnd;
use dp_command::CommandName;
use dp_state::Outcome;

/// The state of a session: DBGp 1.0, "status".
#[derive(Clone, Copy, Debug, PartialEq, Eq)]
pub enum Phase {
    /// Before the first continuation.
    Starting,
    /// At a moment.
    Break,
    /// After the program's end.
    Stopping,
}

/// Why a session came into its state: DBGp 1.0, "status".
#[derive(Clone, Copy, Debug, PartialEq, Eq)]
pub enum Reason {
    Ok,
    /// The program could not go on.
    Error,
    /// The program had as many moments as it may.
    Aborted,
}

/// Where a session stands: its state, and how its program has ended, if it has.
#[derive(Clone, Copy, Debug, PartialEq, Eq)]
pub(crate) enum Position {
    Starting,
    Break,
    Stopping(Outcome),
}

impl Position {
    /// The state of a session that stands here.
    pub(crate) fn phase(self) -> Phase
        ensures { result ≡ phase_of self }
    {
        match self {
            Position::Starting => Phase::Starting,
            Position::Break => Phase::Break,
            Position::Stopping(_) => Phase::Stopping,
        }
    }

    /// Why a session that stands here came into its state: `ok`, or what its program's end gives.
    pub(crate) fn reason(self) -> Reason
        ensures { result ≡ reason_at self }
    {
        match self {
            Position::Starting => Reason::Ok,
            Position::Break => Reason::Ok,
            Position::Stopping(outcome) => Reason::of(outcome),
        }
    }

    /// How a session ends that is stopped: a program that has not ended is killed.
    pub(crate) fn end_by_stop(self) -> SessionEnd
        ensures { result ≡ end_of self }
    {
        match self {
            Position::Starting => SessionEnd::Killed,
            Position::Break => SessionEnd::Killed,
            Position::Stopping(outcome) => SessionEnd::Finished(outcome),
        }
    }
}

impl Phase {
    /// Its name in a response. Takes no memory.
    pub(crate) fn name(self) -> &'static [u8]
        ensures text { result.now ≡ spec.phase_name self }
        ensures short { length result.now ≤ 16 }
    {
        match self {
            Phase::Starting => b"starting",
            Phase::Break => b"break",
            Phase::Stopping => b"stopping",
        }
    }

    /// Whether the program has not ended.
    fn is_before_end(self) -> bool
        ensures { result ≡ spec.before_end self }
    {
        match self {
            Phase::Starting => true,
            Phase::Break => true,
            Phase::Stopping => false,
        }
    }

    /// Whether the program stands at a moment.
    fn is_at_moment(self) -> bool
        ensures { result ≡ spec.at_moment self }
    {
        match self {
            Phase::Starting => false,
            Phase::Break => true,
            Phase::Stopping => false,
        }
    }

    /// Whether the state allows a command. Takes no memory.
    pub(crate) fn allows(self, name: CommandName) -> bool
        ensures { result ≡ spec.allows self name }
    {
        match name {
            CommandName::Status => true,
            CommandName::FeatureGet => true,
            CommandName::FeatureSet => self.is_before_end(),
            CommandName::Run => true,
            CommandName::StepInto => true,
            CommandName::StepOver => true,
            CommandName::StepOut => true,
            CommandName::Stop => true,
            CommandName::Detach => true,
            CommandName::BreakpointSet => self.is_before_end(),
            CommandName::BreakpointGet => self.is_before_end(),
            CommandName::BreakpointRemove => self.is_before_end(),
            CommandName::BreakpointUpdate => self.is_before_end(),
            CommandName::BreakpointList => self.is_before_end(),
            CommandName::StackDepth => self.is_at_moment(),
            CommandName::StackGet => self.is_at_moment(),
            CommandName::ContextNames => self.is_before_end(),
            CommandName::ContextGet => self.is_at_moment(),
            CommandName::PropertyGet => self.is_at_moment(),
            CommandName::PropertyValue => self.is_at_moment(),
            CommandName::PropertySet => self.is_at_moment(),
            CommandName::Source => self.is_before_end(),
            CommandName::Stdout => self.is_before_end(),
            CommandName::Stderr => self.is_before_end(),
            CommandName::Eval => self.is_at_moment(),
        }
    }
}

impl Reason {
    /// The reason that a program's end gives.
    pub(crate) fn of(outcome: Outcome) -> Self
        ensures { result ≡ spec.reason_of outcome }
    {
        match outcome {
            Outcome::Done => Reason::Ok,
            Outcome::Exit(_) => Reason::Ok,
            Outcome::Fatal {
                kind: _,
                file: _,
                line: _,
            } => Reason::Error,
            Outcome::Bound => Reason::Aborted,
        }
    }

    /// Its name in a response. Takes no memory.
    pub(crate) fn name(self) -> &'static [u8]
        ensures text { result.now ≡ spec.reason_name self }
        ensures short { length result.now ≤ 16 }
    {
        match self {
            Reason::Ok => b"ok",
            Reason::Error => b"error",
            Reason::Aborted => b"aborted",
        }
    }
}
