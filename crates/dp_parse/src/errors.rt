//! Why bytes are no program, or no expression.

ghost use Rattle.std.specs.Prelude.{◌≡◌};

use dp_bytes::{Bytes, Memory};
use dp_lexer::LexError;
use thiserror::Error;

/// Why bytes are no program, or no expression. A token is named by its number, from 0; where the end is what is wrong,
/// it is the number of tokens.
#[derive(Debug, Drop, Error)]
pub enum ParseError {
    /// The bytes have no tokens.
    #[error("{0}")]
    Lex(LexError),
    /// The first token with which no program begins, however deep it nests.
    #[error("token {token} is unexpected")]
    Unexpected { token: usize },
    /// The first token with which no program within the limits of nesting begins.
    #[error("token {token} nests too deep")]
    TooDeep { token: usize },
    /// A function, by its name as written, has the name of a built-in function or of a function before it.
    #[error("a function is declared twice")]
    DoubleFunction { name: Bytes },
    /// Out of memory.
    #[error("out of memory")]
    Memory,
}

impl From<Memory> for ParseError {
    ghost use Rattle.dp_parse.specs.declared.errors.ParseError.TheVariants as error;

    ghost from_gives = { λ _ e. e ≡ error.Memory };

    fn from(_refused: Memory) -> ParseError {
        ParseError::Memory
    }
}
