//! The codes of errors, with their numbers and messages.
ghost use Rattle.std.specs.Prelude.{◌≡◌, true};
ghost use Rattle.dp_packet.specs.Messages as spec;

/// Why a command is refused: the codes of DBGp 1.0, "Error Codes", that an engine answers.
#[derive(Clone, Copy, Debug, PartialEq, Eq)]
pub enum ErrorCode {
    /// 1
    ParseError,
    /// 2
    DuplicateArguments,
    /// 3
    InvalidOptions,
    /// 4
    UnimplementedCommand,
    /// 5
    CommandNotAvailable,
    /// 100
    CannotOpenFile,
    /// 200
    BreakpointNotSet,
    /// 201
    TypeNotSupported,
    /// 202
    InvalidBreakpointLine,
    /// 203
    NoCodeOnLine,
    /// 204
    InvalidBreakpointState,
    /// 205
    NoSuchBreakpoint,
    /// 206
    ErrorEvaluatingCode,
    /// 207
    InvalidExpression,
    /// 300
    CannotGetProperty,
    /// 301
    StackDepthInvalid,
    /// 302
    ContextInvalid,
    /// 900
    EncodingNotSupported,
}

impl ErrorCode {
    /// The number in an error response; each has a message. Takes no memory.
    pub fn number(self) -> u16
        ensures value { result ≡ spec.number self }
        ensures known { spec.is_some_text (spec.message_of result) ≡ true }
    {
        match self {
            ErrorCode::ParseError => 1,
            ErrorCode::DuplicateArguments => 2,
            ErrorCode::InvalidOptions => 3,
            ErrorCode::UnimplementedCommand => 4,
            ErrorCode::CommandNotAvailable => 5,
            ErrorCode::CannotOpenFile => 100,
            ErrorCode::BreakpointNotSet => 200,
            ErrorCode::TypeNotSupported => 201,
            ErrorCode::InvalidBreakpointLine => 202,
            ErrorCode::NoCodeOnLine => 203,
            ErrorCode::InvalidBreakpointState => 204,
            ErrorCode::NoSuchBreakpoint => 205,
            ErrorCode::ErrorEvaluatingCode => 206,
            ErrorCode::InvalidExpression => 207,
            ErrorCode::CannotGetProperty => 300,
            ErrorCode::StackDepthInvalid => 301,
            ErrorCode::ContextInvalid => 302,
            ErrorCode::EncodingNotSupported => 900,
        }
    }
}

/// The message of an error, empty where no code has this number. Takes no memory.
pub fn message(number: u16) -> &'static [u8]
    ensures { result.now ≡ spec.message_of number }
{
    match number {
        1 => b"parse error",
        2 => b"duplicate arguments",
        3 => b"invalid options",
        4 => b"unimplemented command",
        5 => b"command not available",
        100 => b"cannot open file",
        200 => b"breakpoint could not be set",
        201 => b"type not supported",
        202 => b"invalid breakpoint line",
        203 => b"no code on line",
        204 => b"invalid breakpoint state",
        205 => b"no such breakpoint",
        206 => b"error evaluating code",
        207 => b"invalid expression",
        300 => b"cannot get property",
        301 => b"stack depth invalid",
        302 => b"context invalid",
        900 => b"encoding not supported",
        _ => b"",
    }
}
