//! The tokens of a text.

ghost use Rattle.std.specs.Prelude.{◌≡◌, ◌⊎◌, ◌<◌, ◌≤◌, ◌+◌, ◌^◌, ◌++◌, length, drop, ℕ, List, IfOk, IsTrue, OnOk};
ghost use Rattle.std.specs.Prelude.{MatchResult};
ghost use Rattle.dp_lexer.specs.declared.fault.Fault.{Fault};
ghost use Rattle.dp_lexer.specs.declared.token.Token.{Token};
ghost use Rattle.dp_lexer.specs.Tokens.{feeds, token_at, error_of, AreTokensFrom, IsRefusedFrom, HasTag, AreFileTokens};
ghost use Rattle.dp_lexer.specs.Tokens.{AreTokens, IsFileRefused, IsRefused};
ghost use Rattle.dp_lexer.specs.inner.Lexed.{IsPlacedWithin, placed_at};

use crate::class::is_space;
use crate::errors::LexError;
use crate::fault::{Fault, Wrong};
use crate::pieces::piece;
use crate::token::{Token, TokenKind};
use std::alloc::{AllocError, Global};

/// How many bytes the tag has.
const TAG: usize = 5;

/// How many line feeds there are. Takes no memory.
pub fn line_feeds(bytes: &[u8]) -> usize
    ensures { result ≡ feeds bytes.now }
{
    let mut n = 0;
    for b in bytes {
        if *b == b'\n' {
            n += 1;
        }
    }
    n
}

/// Puts the token of this kind, if there is one, behind the others, with where it stands and its line.
fn push_token(
    tokens: &mut Vec<Token>,
    kind: Option<TokenKind>,
    start: usize,
    len: usize,
    line: usize,
) -> Result<(), AllocError>
    requires end { start + len < 2 ^ 32 }
    requires line { line < 2 ^ 32 }
    ensures { OnOk result (tokens.new.items ≡ tokens.old.items ++ token_at start line kind len) }
{
    if let Some(kind) = kind {
        tokens.push(Token {
            kind,
            start: start as u32,
            end: (start + len) as u32,
            line: line as u32,
        })?;
    }
    Ok(())
}

/// The error for what is wrong in a piece, where the piece starts at this offset.
fn placed(wrong: Wrong, start: usize) -> LexError
    requires { IsPlacedWithin wrong start }
    ensures { result ≡ placed_at wrong start }
{
    match wrong {
        Wrong::Fault(Fault::BadByte, at) => LexError::BadByte {
            offset: (start + at) as u32,
        },
        Wrong::Fault(Fault::OpenString, at) => LexError::OpenString {
            offset: (start + at) as u32,
        },
        Wrong::Fault(Fault::OpenComment, at) => LexError::OpenComment {
            offset: (start + at) as u32,
        },
        Wrong::Fault(Fault::WideNumber, at) => LexError::WideNumber {
            offset: (start + at) as u32,
        },
        Wrong::Memory => LexError::Memory,
    }
}

/// The tokens of bytes that stand at this offset, on line 1.
fn lex_from(alloc: Global, at: usize, bytes: &[u8]) -> Result<Vec<Token>, LexError>
    requires { at + length bytes.now < 2 ^ 32 }
    ensures found { IfOk result (λ found. AreTokensFrom at bytes.now found.items) }
    ensures only { (tokens : List Token) → AreTokensFrom at bytes.now tokens
        → MatchResult result (λ found. found.items ≡ tokens) (λ e. e ≡ LexError.Memory) }
    ensures refused { (fault : Fault) (offset : ℕ) → result ≡ Err (error_of fault offset)
        → IsRefusedFrom at bytes.now fault offset }
    ensures refuses { (fault : Fault) (offset : ℕ) → IsRefusedFrom at bytes.now fault offset
        → MatchResult result (λ _. ⊥) (λ e. (e ≡ error_of fault offset) ⊎ (e ≡ LexError.Memory)) }
{
    let mut tokens = Vec::new(alloc);
    let mut rest = bytes;
    let mut line = 1usize;
    while !rest.is_empty() {
        let start = at + (bytes.len() - rest.len());
        let (kind, len) = match piece(alloc, rest) {
            Ok(found) => found,
            Err(wrong) => return Err(placed(wrong, start)),
        };
        if push_token(&mut tokens, kind, start, len, line).is_err() {
            return Err(LexError::Memory);
        }
        let (text, more) = rest.split_at(len);
        line += line_feeds(text);
        rest = more;
    }
    Ok(tokens)
}

/// Whether the bytes begin with the tag, and white space or the end stands behind it.
fn has_tag(bytes: &[u8]) -> bool
    ensures holds { IsTrue result → HasTag bytes.now (drop 5 bytes.now) }
    ensures only { (rest : List ℕ) → HasTag bytes.now rest → IsTrue result × (rest ≡ drop 5 bytes.now) }
    ensures within { IsTrue result → 5 ≤ length bytes.now }
{
    if bytes.len() < TAG || !bytes[..TAG].eq_ignore_ascii_case(b"<?php") {
        return false;
    }
    bytes.len() == TAG || is_space(bytes[TAG])
}

/// The tokens of a file: the bytes begin with the tag `<?php`, which is no token.
///
/// Offsets count from the first byte of the file, lines from 1. Takes time linear in the bytes.
pub fn lex(alloc: Global, bytes: &[u8]) -> Result<Vec<Token>, LexError>
    requires { length bytes.now < 2 ^ 32 }
    ensures found { IfOk result (λ found. AreFileTokens bytes.now found.items) }
    ensures only { (tokens : List Token) → AreFileTokens bytes.now tokens
        → MatchResult result (λ found. found.items ≡ tokens) (λ e. e ≡ LexError.Memory) }
    ensures refused { (fault : Fault) (offset : ℕ) → result ≡ Err (error_of fault offset)
        → IsFileRefused bytes.now fault offset }
    ensures refuses { (fault : Fault) (offset : ℕ) → IsFileRefused bytes.now fault offset
        → MatchResult result (λ _. ⊥) (λ e. (e ≡ error_of fault offset) ⊎ (e ≡ LexError.Memory)) }
{
    if !has_tag(bytes) {
        return Err(LexError::BadByte { offset: 0 });
    }
    lex_from(alloc, TAG, &bytes[TAG..])
}

/// The tokens of an expression: bytes without a tag. Offsets and lines are as for [`lex`].
pub fn lex_expression(alloc: Global, bytes: &[u8]) -> Result<Vec<Token>, LexError>
    requires { length bytes.now < 2 ^ 32 }
    ensures found { IfOk result (λ found. AreTokens bytes.now found.items) }
    ensures only { (tokens : List Token) → AreTokens bytes.now tokens
        → MatchResult result (λ found. found.items ≡ tokens) (λ e. e ≡ LexError.Memory) }
    ensures refused { (fault : Fault) (offset : ℕ) → result ≡ Err (error_of fault offset)
        → IsRefused bytes.now fault offset }
    ensures refuses { (fault : Fault) (offset : ℕ) → IsRefused bytes.now fault offset
        → MatchResult result (λ _. ⊥) (λ e. (e ≡ error_of fault offset) ⊎ (e ≡ LexError.Memory)) }
{
    lex_from(alloc, 0, bytes)
}
