//! What a request leads to, as its messages tell it.

/// Why the program stands.
#[derive(Clone, Copy, Debug, PartialEq, Eq)]
pub enum StopReason {
    Entry,
    Breakpoint,
    Step,
}

/// What became of the program, or of the gateway, behind a response.
#[derive(Clone, Copy, Debug, PartialEq, Eq)]
pub enum News {
    Nothing,
    Initialized,
    Stopped(StopReason),
    /// The program has ended, with this code.
    Ended(u8),
}

/// Why a request is refused.
#[derive(Clone, Copy, Debug, PartialEq, Eq)]
pub enum Refusal {
    Unsupported,
    NotNow,
    BadArguments,
    TooManyReferences,
    /// The session refused a command with this code.
    Code(u16),
}
