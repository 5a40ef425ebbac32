//! Why a session beside a reader was not served.

/// Why a session beside a reader was not served.
#[derive(Clone, Copy, Debug, PartialEq, Eq)]
pub enum AsyncError {
    /// No thread could be started for the reader.
    NoThread,
    /// Memory ran out, of the reader or before the session.
    Memory,
}
