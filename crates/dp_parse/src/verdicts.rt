//! What tokens spell, or the refusal with which they spell nothing.

ghost use Rattle.std.specs.Prelude.{◌≡◌, ◌≢◌, ◌⊎◌, IfOk, IfErr, MatchResult};
ghost use Rattle.dp_parse.specs.declared.ended.Parts.{Parts};
ghost use Rattle.dp_parse.specs.declared.errors.ParseError.{ParseError};
ghost use Rattle.dp_tree.specs.declared.tree.Expression.{Expression};
ghost use Rattle.dp_parse.specs.Programs.{AreWrong, reported};
ghost use Rattle.dp_parse.specs.Limits.{limits};
ghost use Rattle.dp_parse.specs.Statements.{Spells, SpellsExpression};

use crate::ended::Parts;
use crate::errors::ParseError;
use crate::files::{expression_text, file};
use dp_lexer::Token;
use dp_token_rules::{Refusal, Tokens};
use dp_tree::Expression;
use std::alloc::Global;

/// The refusal of so many tokens, by the number of the token that is named.
fn refused(count: usize, refusal: Refusal) -> ParseError
    ensures { result ≡ reported count refusal }
{
    match refusal {
        Refusal::Unexpected(left) => ParseError::Unexpected {
            token: count.saturating_sub(left),
        },
        Refusal::TooDeep(left) => ParseError::TooDeep {
            token: count.saturating_sub(left),
        },
        Refusal::Memory => ParseError::Memory,
    }
}

/// The statements and the functions that the tokens spell.
pub(crate) fn parts_of(alloc: Global, tokens: &[Token]) -> Result<Parts, ParseError>
    ensures found { IfOk result (λ parts. Spells limits tokens.now parts) }
    ensures only { (parts : Parts) → Spells limits tokens.now parts →
        MatchResult result (λ found. found ≡ parts) (λ e. e ≡ ParseError.Memory) }
    ensures cause { IfErr result (λ e. AreWrong Spells limits tokens.now e) }
    ensures refuses { (why : ParseError) → why ≢ ParseError.Memory → AreWrong Spells limits tokens.now why →
        MatchResult result (λ _. ⊥) (λ e. (e ≡ why) ⊎ (e ≡ ParseError.Memory)) }
{
    match file(alloc, &mut Tokens::new(tokens)) {
        Ok(parts) => Ok(parts),
        Err(refusal) => Err(refused(tokens.len(), refusal)),
    }
}

/// The expression that the tokens spell.
pub(crate) fn expression_of(alloc: Global, tokens: &[Token]) -> Result<Expression, ParseError>
    ensures found { IfOk result (λ e. SpellsExpression limits.expressions tokens.now e) }
    ensures only { (e : Expression) → SpellsExpression limits.expressions tokens.now e →
        MatchResult result (λ found. found ≡ e) (λ e. e ≡ ParseError.Memory) }
    ensures cause { IfErr result (λ e. AreWrong SpellsExpression limits.expressions tokens.now e) }
    ensures refuses { (why : ParseError) → why ≢ ParseError.Memory
        → AreWrong SpellsExpression limits.expressions tokens.now why →
        MatchResult result (λ _. ⊥) (λ e. (e ≡ why) ⊎ (e ≡ ParseError.Memory)) }
{
    match expression_text(alloc, &mut Tokens::new(tokens)) {
        Ok(found) => Ok(found),
        Err(refusal) => Err(refused(tokens.len(), refusal)),
    }
}
