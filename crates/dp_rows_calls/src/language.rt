//! Calls of the language: tokens, trees, lines with code, and expressions that change nothing.
ghost use Rattle.std.specs.Prelude.{◌≤◌, length, ◌^◌};

use dp_lexer::{LexError, Token, TokenKind, lex, lex_expression};
use dp_parse::{ParseError, parse_expression, parse_file};
use dp_rows::{Memory, put_bytes};
use dp_tree::{Expression, File, has_code, is_pure};
use std::alloc::Global;

/// Puts why bytes have no tokens.
fn put_lexical(text: &mut String, error: LexError) -> Result<(), Memory> {
    match error {
        LexError::BadByte { offset } => write!(text, "BadByte {offset}")?,
        LexError::OpenString { offset } => write!(text, "OpenString {offset}")?,
        LexError::OpenComment { offset } => write!(text, "OpenComment {offset}")?,
        LexError::WideNumber { offset } => write!(text, "WideNumber {offset}")?,
        LexError::Memory => text.push_str("Memory")?,
    }
    Ok(())
}

/// Puts a word and bytes.
fn put_word(text: &mut String, word: &str, bytes: &[u8]) -> Result<(), Memory> {
    text.push_str(word)?;
    text.push(' ')?;
    put_bytes(text, bytes)
}

/// Puts what a token is.
fn put_kind(text: &mut String, kind: &TokenKind) -> Result<(), Memory> {
    match kind {
        TokenKind::Variable(name) => put_word(text, "Variable", name.as_slice()),
        TokenKind::Name(name) => put_word(text, "Name", name.as_slice()),
        TokenKind::Text(value) => put_word(text, "Text", value.as_slice()),
        other => put_plain(text, other),
    }
}

/// Puts a token without bytes.
fn put_plain(text: &mut String, kind: &TokenKind) -> Result<(), Memory> {
    match kind {
        TokenKind::Number(number) => write!(text, "Number {number}")?,
        TokenKind::Word(word) => write!(text, "{word:?}")?,
        other => write!(text, "{other:?}")?,
    }
    Ok(())
}

/// Puts a token: its line, the places of its first byte and behind its last, and what it is.
fn put_token(text: &mut String, token: &Token) -> Result<(), Memory> {
    let Token {
        kind,
        start,
        end,
        line,
    } = token;
    write!(text, "{line} {start} {end} ")?;
    put_kind(text, kind)?;
    text.push('\n')?;
    Ok(())
}

/// Tokens, a line each.
fn text_of(alloc: Global, tokens: &[Token]) -> Result<String, Memory> {
    let mut text = String::new(alloc);
    for token in tokens {
        put_token(&mut text, token)?;
    }
    Ok(text)
}

/// Why bytes have no tokens.
fn no_tokens(alloc: Global, error: LexError) -> Result<String, Memory> {
    let mut text = String::new(alloc);
    put_lexical(&mut text, error)?;
    Ok(text)
}

/// The tokens of a file, a line each.
pub(crate) fn told_tokens(alloc: Global, input: &[u8]) -> Result<String, Memory>
    requires { length input.now ≤ 2 ^ 24 }
{
    match lex(alloc, input) {
        Ok(tokens) => text_of(alloc, tokens.as_slice()),
        Err(error) => no_tokens(alloc, error),
    }
}

/// The tokens of an expression, a line each.
pub(crate) fn told_expression_tokens(alloc: Global, input: &[u8]) -> Result<String, Memory>
    requires { length input.now ≤ 2 ^ 24 }
{
    match lex_expression(alloc, input) {
        Ok(tokens) => text_of(alloc, tokens.as_slice()),
        Err(error) => no_tokens(alloc, error),
    }
}

/// Puts why bytes have no tree.
fn put_refusal(text: &mut String, error: &ParseError) -> Result<(), Memory> {
    match error {
        ParseError::Lex(error) => put_lexical(text, *error),
        ParseError::DoubleFunction { name } => put_word(text, "DoubleFunction", name.as_slice()),
        other => put_place(text, other),
    }
}

/// Puts at which token bytes have no tree.
fn put_place(text: &mut String, error: &ParseError) -> Result<(), Memory> {
    match error {
        ParseError::Unexpected { token } => write!(text, "Unexpected {token}")?,
        ParseError::TooDeep { token } => write!(text, "TooDeep {token}")?,
        _ => text.push_str("Memory")?,
    }
    Ok(())
}

/// Why bytes have no tree.
fn no_tree(alloc: Global, error: &ParseError) -> Result<String, Memory> {
    let mut text = String::new(alloc);
    put_refusal(&mut text, error)?;
    Ok(text)
}

/// Whether a file has a tree, or why it has none.
pub(crate) fn told_file(alloc: Global, input: &[u8]) -> Result<String, Memory>
    requires { length input.now ≤ 2 ^ 24 }
{
    match parse_file(alloc, input) {
        Ok(_) => String::from_str(alloc, "tree"),
        Err(error) => no_tree(alloc, &error),
    }
}

/// Whether an expression has a tree, or why it has none.
pub(crate) fn told_expression(alloc: Global, input: &[u8]) -> Result<String, Memory>
    requires { length input.now ≤ 2 ^ 24 }
{
    match parse_expression(alloc, input) {
        Ok(_) => String::from_str(alloc, "tree"),
        Err(error) => no_tree(alloc, &error),
    }
}

/// Whether an expression changes nothing, in words.
fn purity_of(alloc: Global, expression: &Expression) -> Result<String, Memory> {
    if is_pure(expression) {
        String::from_str(alloc, "pure")
    } else {
        String::from_str(alloc, "not pure")
    }
}

/// Whether the expression that bytes spell changes nothing.
pub(crate) fn told_purity(alloc: Global, input: &[u8]) -> Result<String, Memory>
    requires { length input.now ≤ 2 ^ 24 }
{
    match parse_expression(alloc, input) {
        Ok(expression) => purity_of(alloc, &expression),
        Err(error) => no_tree(alloc, &error),
    }
}

/// How many lines a file has, and which of them have code.
fn code_of(alloc: Global, file: &File) -> Result<String, Memory> {
    let lines = file.lines;
    let mut text = format!(in alloc; "{lines} lines, code on")?;
    for line in 0..1000 {
        if has_code(file, line) {
            write!(text, " {line}")?;
        }
    }
    Ok(text)
}

/// How many lines the file that bytes spell has, and which of them have code.
pub(crate) fn told_code(alloc: Global, input: &[u8]) -> Result<String, Memory>
    requires { length input.now ≤ 2 ^ 24 }
{
    match parse_file(alloc, input) {
        Ok(file) => code_of(alloc, &file),
        Err(error) => no_tree(alloc, &error),
    }
}
