//! The sorts of tokens.

ghost use Rattle.std.specs.Prelude.{◌≡◌};
ghost use Rattle.dp_token_rules.specs.Terminals as spec;

use dp_lexer::{TokenKind, Word, is_reserved};

/// What sort of token comes next.
#[derive(Clone, Copy, Debug, PartialEq, Eq)]
pub enum Terminal {
    /// No token is left.
    End,
    /// A variable that a program may name.
    Variable,
    /// `$this` or `$GLOBALS`.
    Superglobal,
    /// A name that a function or a constant may have.
    Name,
    /// A reserved word that the grammar does not use.
    Reserved,
    /// `const`, which is a name to the lexer.
    Const,
    Number,
    Text,
    /// A token that carries nothing.
    Of(Word),
}

/// Whether a program may not name this variable, in exactly this case of letters. Takes no memory.
pub fn is_superglobal(name: &[u8]) -> bool
    ensures { result ≡ spec.is_superglobal name.now }
{
    name == b"this".as_slice() || name == b"GLOBALS".as_slice()
}

/// What sort of token this reserved word is, which is no keyword of the lexer.
fn reserved_terminal(name: &[u8]) -> Terminal
    ensures { result ≡ spec.reserved_terminal name.now }
{
    if name.eq_ignore_ascii_case(b"const") {
        Terminal::Const
    } else {
        Terminal::Reserved
    }
}

/// What sort of token this is.
pub(crate) fn terminal_of(kind: &TokenKind) -> Terminal
    ensures { result ≡ spec.terminal_of kind.now }
{
    match kind {
        TokenKind::Variable(name) if is_superglobal(name.as_slice()) => Terminal::Superglobal,
        TokenKind::Variable(_) => Terminal::Variable,
        TokenKind::Name(name) if is_reserved(name.as_slice()) => reserved_terminal(name.as_slice()),
        TokenKind::Name(_) => Terminal::Name,
        TokenKind::Number(_) => Terminal::Number,
        TokenKind::Text(_) => Terminal::Text,
        TokenKind::Word(word) => Terminal::Of(*word),
    }
}

/// Sorts by numbers, each by its own.
fn number_of(terminal: Terminal) -> u8
    ensures { result ≡ spec.number_of terminal }
{
    match terminal {
        Terminal::End => 0,
        Terminal::Variable => 1,
        Terminal::Superglobal => 2,
        Terminal::Name => 3,
        Terminal::Reserved => 4,
        Terminal::Const => 5,
        Terminal::Number => 6,
        Terminal::Text => 7,
        Terminal::Of(word) => 8 + word as u8,
    }
}

/// Whether two sorts are the same.
pub(crate) fn same_terminal(a: Terminal, b: Terminal) -> bool
    ensures { result ≡ spec.same_terminal a b }
{
    number_of(a) == number_of(b)
}
