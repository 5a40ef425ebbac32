//! Expressions and places with as many levels of nesting as programs have.

ghost use Rattle.std.specs.Prelude.{⊤};
ghost use Rattle.dp_token_rules.specs.inner.Input.{Reads};
ghost use Rattle.dp_parse.specs.inner.Within as limited;
ghost use Rattle.dp_token_rules.specs.inner.ListReaders as lists;

use dp_bytes::Items;
use dp_expressions::Part;
use dp_token_rules::{Piece, Refusal, Terminal, Tokens, any_plain_items, plain_items, some_items};
use dp_tree::{Expression, Place};
use std::alloc::Global;

/// How many levels of nesting an expression has at most.
pub(crate) const EXPRESSION_LEVELS: usize = 32;

/// How many levels of nesting a body has at most.
pub(crate) const BODY_LEVELS: usize = 32;

/// Reads an expression; refuses where it has more levels of nesting than programs have.
pub(crate) fn expression(alloc: Global, tokens: &mut Tokens<'_>) -> Result<Expression, Refusal>
    ensures { Reads (limited.expression tokens.old) result tokens.new }
{
    dp_expressions::expression(alloc, tokens, EXPRESSION_LEVELS, Part::Whole)
}

/// Reads a place; refuses where it has more levels of nesting than programs have.
pub(crate) fn place(alloc: Global, tokens: &mut Tokens<'_>) -> Result<Place, Refusal>
    ensures { Reads (limited.place tokens.old) result tokens.new }
{
    dp_expressions::place(alloc, tokens, EXPRESSION_LEVELS)
}

/// An expression in a list.
#[derive(Drop)]
struct ListedExpression {
    alloc: Global,
}

impl Piece<Expression> for ListedExpression {
    ghost reads = { λ _. limited.expression };

    ghost ready = { λ _. ⊤ };

    fn read(&self, tokens: &mut Tokens<'_>) -> Result<Expression, Refusal> {
        expression(self.alloc, tokens)
    }
}

/// A place in a list.
#[derive(Drop)]
struct ListedPlace {
    alloc: Global,
}

impl Piece<Place> for ListedPlace {
    ghost reads = { λ _. limited.place };

    ghost ready = { λ _. ⊤ };

    fn read(&self, tokens: &mut Tokens<'_>) -> Result<Place, Refusal> {
        place(self.alloc, tokens)
    }
}

/// One expression or more, and what closes them.
pub(crate) fn some_expressions(
    alloc: Global,
    tokens: &mut Tokens<'_>,
    close: Terminal,
) -> Result<Items<Expression>, Refusal>
    ensures { Reads (lists.plain_items (λ _. limited.expression) close tokens.old) result tokens.new }
{
    plain_items(alloc, tokens, close, &ListedExpression { alloc })
}

/// Any number of expressions, and what closes them.
pub(crate) fn any_expressions(
    alloc: Global,
    tokens: &mut Tokens<'_>,
    close: Terminal,
) -> Result<Items<Expression>, Refusal>
    ensures { Reads (lists.any_plain_items (λ _. limited.expression) close tokens.old) result tokens.new }
{
    any_plain_items(alloc, tokens, close, &ListedExpression { alloc })
}

/// One place or more, possibly with a comma behind the last, and what closes them.
pub(crate) fn some_places(
    alloc: Global,
    tokens: &mut Tokens<'_>,
    close: Terminal,
) -> Result<Items<Place>, Refusal>
    ensures { Reads (lists.some_items (λ _. limited.place) close tokens.old) result tokens.new }
{
    some_items(alloc, tokens, close, &ListedPlace { alloc })
}
