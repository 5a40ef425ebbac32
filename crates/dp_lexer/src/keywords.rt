//! The words of the grammar.

ghost use Rattle.std.specs.Prelude.{◌≡◌, IfOk, is_some};
ghost use Rattle.std.specs.Str.{str_eq_ignore_ascii_case};
ghost use Rattle.dp_lexer.specs.Keywords as words;

use crate::spelling::Spelling;
use crate::token::{TokenKind, Word};
use std::alloc::{AllocError, Global};

/// Whether a name is this word, in any case of letters.
pub(crate) fn is_word(name: &[u8], word: &[u8]) -> bool
    ensures { result ≡ str_eq_ignore_ascii_case name.now word.now }
{
    name.eq_ignore_ascii_case(word)
}

/// The keyword of a statement that a name is.
fn statement_word(name: &[u8]) -> Option<Word>
    ensures { result ≡ words.look_up_word name.now words.statement_words }
{
    if is_word(name, b"as") {
        Some(Word::As)
    } else if is_word(name, b"break") {
        Some(Word::Break)
    } else if is_word(name, b"continue") {
        Some(Word::Continue)
    } else if is_word(name, b"die") {
        Some(Word::Die)
    } else if is_word(name, b"do") {
        Some(Word::Do)
    } else if is_word(name, b"echo") {
        Some(Word::Echo)
    } else if is_word(name, b"else") {
        Some(Word::Else)
    } else if is_word(name, b"elseif") {
        Some(Word::ElseIf)
    } else if is_word(name, b"exit") {
        Some(Word::Exit)
    } else if is_word(name, b"for") {
        Some(Word::For)
    } else if is_word(name, b"foreach") {
        Some(Word::Foreach)
    } else if is_word(name, b"function") {
        Some(Word::Function)
    } else if is_word(name, b"global") {
        Some(Word::Global)
    } else if is_word(name, b"if") {
        Some(Word::If)
    } else if is_word(name, b"return") {
        Some(Word::Return)
    } else if is_word(name, b"unset") {
        Some(Word::Unset)
    } else if is_word(name, b"while") {
        Some(Word::While)
    } else {
        None
    }
}

/// The keyword of an expression that a name is.
fn expression_word(name: &[u8]) -> Option<Word>
    ensures { result ≡ words.look_up_word name.now words.expression_words }
{
    if is_word(name, b"array") {
        Some(Word::Array)
    } else if is_word(name, b"false") {
        Some(Word::False)
    } else if is_word(name, b"include") {
        Some(Word::Include)
    } else if is_word(name, b"isset") {
        Some(Word::Isset)
    } else if is_word(name, b"null") {
        Some(Word::Null)
    } else if is_word(name, b"require") {
        Some(Word::Require)
    } else if is_word(name, b"true") {
        Some(Word::True)
    } else {
        None
    }
}

/// The keyword that a name is.
fn keyword(name: &[u8]) -> Option<Word>
    ensures { result ≡ words.keyword_of name.now }
{
    match statement_word(name) {
        Some(word) => Some(word),
        None => expression_word(name),
    }
}

/// Whether a name is a keyword.
pub(crate) fn is_keyword(name: &[u8]) -> bool
    ensures { result ≡ is_some (words.keyword_of name.now) }
{
    match keyword(name) {
        Some(_word) => true,
        None => false,
    }
}

/// What a name is: a keyword or itself.
pub(crate) fn word_of(alloc: Global, name: &[u8]) -> Result<TokenKind, AllocError>
    ensures { IfOk result (λ kind. kind ≡ words.word_of name.now) }
{
    match keyword(name) {
        Some(word) => Ok(TokenKind::Word(word)),
        None => Ok(TokenKind::Name(Spelling::from_slice(alloc, name)?)),
    }
}
