//! Names and variables.

ghost use Rattle.std.specs.Prelude.{◌≡◌, ◌≤◌, length};
ghost use Rattle.std.specs.List.{list_all};
ghost use Rattle.dp_lexer.specs.Bytes as sorts;
ghost use Rattle.dp_lexer.specs.Names as tests;
ghost use Rattle.dp_lexer.specs.inner.Lexer as spec;
ghost use Rattle.dp_lexer.specs.inner.Lexer.{Finds};

use crate::class::{is_part, is_start};
use crate::fault::{Fault, Wrong};
use crate::keywords::word_of;
use crate::reserved::is_reserved;
use crate::spelling::Spelling;
use crate::token::TokenKind;
use std::alloc::Global;

/// The most bytes that a name may have.
pub const NAME_LIMIT: usize = 255;

/// How many bytes of a name stand at the front.
fn name_len(z: &[u8]) -> usize
    ensures value { result ≡ spec.name_len z.now }
    ensures within { result ≤ length z.now }
{
    let mut n = 0;
    while n < z.len() && is_part(z[n]) {
        n += 1;
    }
    n
}

/// Whether a name may go on with each of these bytes.
fn all_parts(bytes: &[u8]) -> bool
    ensures { result ≡ list_all sorts.is_part bytes.now }
{
    bytes.iter().all(|b| is_part(*b))
}

/// Whether these bytes are a name of at most 255 bytes.
fn is_name(bytes: &[u8]) -> bool
    ensures { result ≡ tests.is_name bytes.now }
{
    match bytes {
        [] => false,
        [first, rest @ ..] => { is_start(*first) && all_parts(rest) && bytes.len() <= NAME_LIMIT }
    }
}

/// Whether these bytes are a name that a program may give to a function or a constant: a name of a token, no reserved
/// word, and none of `true`, `false` and `null`. Takes no memory.
pub fn is_given(bytes: &[u8]) -> bool
    ensures { result ≡ tests.is_given bytes.now }
{
    is_name(bytes) && !is_reserved(bytes)
}

/// The name or the keyword that stands at the front.
pub(crate) fn name(alloc: Global, z: &[u8]) -> Result<(Option<TokenKind>, usize), Wrong>
    ensures { Finds (spec.name_at z.now) result }
{
    let len = name_len(z);
    if len > NAME_LIMIT {
        return Err(Wrong::Fault(Fault::BadByte, NAME_LIMIT));
    }
    Ok((Some(word_of(alloc, &z[..len])?), len))
}

/// The variable whose dollar stands before these bytes.
pub(crate) fn variable(alloc: Global, rest: &[u8]) -> Result<(Option<TokenKind>, usize), Wrong>
    ensures { Finds (spec.dollar_at rest.now) result }
{
    match rest {
        [b, ..] if is_start(*b) => {
            let len = name_len(rest);
            if len > NAME_LIMIT {
                return Err(Wrong::Fault(Fault::BadByte, NAME_LIMIT + 1));
            }
            let name = Spelling::from_slice(alloc, &rest[..len])?;
            Ok((Some(TokenKind::Variable(name)), len + 1))
        }
        _ => Err(Wrong::Fault(Fault::BadByte, 0)),
    }
}
