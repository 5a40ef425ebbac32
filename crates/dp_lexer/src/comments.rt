//! Comments: where they end, and the `?>` that none in one line may hold.

ghost use Rattle.std.specs.Prelude.{◌≡◌, ◌≤◌, length, IfSome};
ghost use Rattle.dp_lexer.specs.Bytes as sorts;
ghost use Rattle.dp_lexer.specs.inner.Lexer as spec;
ghost use Rattle.dp_lexer.specs.inner.Lexer.{Finds};

use crate::fault::{Fault, Wrong};
use crate::token::TokenKind;

/// Whether `?>` stands at the front.
fn begins_tag(z: &[u8]) -> bool
    ensures { result ≡ sorts.begins_tag z.now }
{
    match z {
        [b, c, ..] => *b == b'?' && *c == b'>',
        _ => false,
    }
}

/// How long a comment stays in its line, up to the first closing tag.
fn line_len(z: &[u8]) -> usize
    ensures value { result ≡ spec.line_len z.now }
    ensures within { result ≤ length z.now }
{
    let mut n = 0;
    let mut rest = z;
    while let [b, more @ ..] = rest {
        if *b == b'\n' || begins_tag(rest) {
            return n;
        }
        rest = more;
        n += 1;
    }
    n
}

/// The comment in one line whose opening mark, of so many bytes, stands before these.
fn line(mark: usize, z: &[u8]) -> Result<(Option<TokenKind>, usize), Wrong>
    requires { mark ≤ 2 }
    ensures { Finds (spec.line_of mark z.now) result }
{
    let len = line_len(z);
    if begins_tag(&z[len..]) {
        Err(Wrong::Fault(Fault::BadByte, mark + len))
    } else {
        Ok((None, mark + len))
    }
}

/// How long a block comment goes on behind its opening mark, with its closing mark.
fn close_len(z: &[u8]) -> Option<usize>
    ensures value { result ≡ spec.close_len z.now }
    ensures within { IfSome result (λ n. n ≤ length z.now) }
{
    let mut n = 0;
    let mut rest = z;
    while let [b, c, ..] = rest {
        if *b == b'*' && *c == b'/' {
            return Some(n + 2);
        }
        rest = &rest[1..];
        n += 1;
    }
    None
}

/// The comment whose `#` stands before these bytes.
pub(crate) fn behind_hash(rest: &[u8]) -> Result<(Option<TokenKind>, usize), Wrong>
    ensures { Finds (spec.hash_at rest.now) result }
{
    match rest {
        [b'[', ..] => Err(Wrong::Fault(Fault::BadByte, 0)),
        _ => line(1, rest),
    }
}

/// The comment whose first slash stands before these bytes.
pub(crate) fn behind_slash(rest: &[u8]) -> Result<(Option<TokenKind>, usize), Wrong>
    ensures { Finds (spec.slash_at rest.now) result }
{
    match rest {
        [b'/', inner @ ..] => line(2, inner),
        [b'*', inner @ ..] => match close_len(inner) {
            Some(len) => Ok((None, len + 2)),
            None => Err(Wrong::Fault(Fault::OpenComment, 0)),
        },
        _ => Err(Wrong::Fault(Fault::BadByte, 0)),
    }
}
