//! Whole texts: the bytes of files and of expressions.

ghost use Rattle.std.specs.Prelude.{◌≡◌, ◌≢◌, ◌<◌, ◌^◌, ◌⊎◌, ℕ, List, length, IfOk, IfErr, MatchResult};
ghost use Rattle.dp_lexer.specs.declared.token.Token.{Token};
ghost use Rattle.dp_parse.specs.declared.ended.Parts.{Parts};
ghost use Rattle.dp_parse.specs.declared.errors.ParseError.{ParseError};
ghost use Rattle.dp_tree.specs.declared.tree.Expression.{Expression};
ghost use Rattle.dp_tree.specs.declared.tree.File.{File};
ghost use Rattle.dp_parse.specs.ExpressionIn.{expression_in, IsReadBy, IsExact};
ghost use Rattle.dp_parse.specs.Statements.{Depth, Spells, SpellsExpression};
ghost use Rattle.dp_parse.specs.Programs.{IsFile, IsNoFile, IsExpressionText, IsNoExpression};
ghost use Rattle.dp_parse.specs.inner.Reasons.{without_tokens};

use crate::ended::Parts;
use crate::errors::ParseError;
use crate::verdicts::{expression_of, parts_of};
use dp_lexer::{LexError, lex, lex_expression, line_feeds};
use dp_tree::{Expression, File, first_double};
use std::alloc::Global;

/// Why there are no tokens.
fn no_tokens(why: LexError) -> ParseError
    ensures { result ≡ without_tokens why }
{
    match why {
        LexError::Memory => ParseError::Memory,
        why => ParseError::Lex(why),
    }
}

/// The tree of a file: the bytes begin with the tag `<?php` and spell a program.
///
/// Takes time linear in the bytes. An error names the first token that is wrong; what is wrong with the bytes of a
/// token comes before what is wrong with tokens, and that before a function that is declared twice.
pub fn parse_file(alloc: Global, bytes: &[u8]) -> Result<File, ParseError>
    requires { length bytes.now < 2 ^ 32 }
    // What is found is the file that the bytes spell.
    ensures found { IfOk result (λ file. IsFile bytes.now file) }
    // The file that the bytes spell is found, unless memory runs out.
    ensures only { (file : File) → IsFile bytes.now file →
        MatchResult result (λ found. found ≡ file) (λ e. e ≡ ParseError.Memory) }
    // Each refusal has its cause.
    ensures cause { IfErr result (λ e. IsNoFile bytes.now e) }
    // Where there is a cause, this is the refusal, unless memory runs out.
    ensures refuses { (why : ParseError) → why ≢ ParseError.Memory → IsNoFile bytes.now why →
        MatchResult result (λ _. ⊥) (λ e. (e ≡ why) ⊎ (e ≡ ParseError.Memory)) }
{
    let tokens = match lex(alloc, bytes) {
        Ok(tokens) => tokens,
        Err(why) => return Err(no_tokens(why)),
    };
    let Parts { body, functions } = match parts_of(alloc, tokens.as_slice()) {
        Ok(parts) => parts,
        Err(why) => return Err(why),
    };
    if let Some(name) = first_double(alloc, functions.as_slice())? {
        return Err(ParseError::DoubleFunction { name });
    }
    let lines = 1 + line_feeds(bytes) as u32;
    Ok(File {
        body,
        functions,
        lines,
    })
}

/// The tree of an expression without a tag, behind which one `;` may stand. Errors are as for [`parse_file`], with
/// tokens counted in this text.
pub fn parse_expression(alloc: Global, bytes: &[u8]) -> Result<Expression, ParseError>
    requires { length bytes.now < 2 ^ 32 }
    ensures found { IfOk result (λ e. IsExpressionText bytes.now e) }
    ensures only { (e : Expression) → IsExpressionText bytes.now e →
        MatchResult result (λ found. found ≡ e) (λ e. e ≡ ParseError.Memory) }
    ensures cause { IfErr result (λ e. IsNoExpression bytes.now e) }
    ensures refuses { (why : ParseError) → why ≢ ParseError.Memory → IsNoExpression bytes.now why →
        MatchResult result (λ _. ⊥) (λ e. (e ≡ why) ⊎ (e ≡ ParseError.Memory)) }
    // The same, with the tree as a function of the bytes.
    ensures read { IsReadBy (expression_in bytes.now) result }
{
    let tokens = match lex_expression(alloc, bytes) {
        Ok(tokens) => tokens,
        Err(why) => return Err(no_tokens(why)),
    };
    expression_of(alloc, tokens.as_slice())
}

/// Tokens spell at most one file, and at most one expression, however deep they nest.
pub fn one_tree()
    ensures files { (l m : Depth) (ts : List Token) (a b : Parts) → Spells l ts a → Spells m ts b → a ≡ b }
    ensures expressions { (l m : ℕ) (ts : List Token) (a b : Expression) →
        SpellsExpression l ts a → SpellsExpression m ts b → a ≡ b }
{}

/// The tree of an expression is a function of its bytes.
pub fn expressions_are_exact()
    ensures { IsExact expression_in }
{}
