//! What statements are read in. Their trees stand on the heap, so that a rule moves no large value.

ghost use Rattle.std.specs.Prelude.{◌≡◌, ◌++◌, ◌∷◌, [], IfOk};
ghost use Rattle.dp_token_rules.specs.inner.Input.{Reads, gives};
ghost use Rattle.dp_parse.specs.Statements as grammar;

use dp_bytes::{Items, Memory};
use dp_token_rules::{Refusal, Tokens, with};
use dp_tree::{Boxed, Function, Statement, StatementKind};
use std::alloc::Global;

/// What a statement does, and whether an `else` behind it could still belong to it.
#[derive(Drop)]
pub struct Ended {
    pub kind: Boxed<StatementKind>,
    pub is_open: bool,
}

/// A statement, and whether an `else` behind it could still belong to it.
#[derive(Drop)]
pub struct Body {
    pub statement: Boxed<Statement>,
    pub is_open: bool,
}

/// The statements and the functions of a file, each in their order.
#[derive(Drop)]
pub struct Parts {
    pub body: Items<Statement>,
    pub functions: Items<Function>,
}

/// What the statement does that was read up to these tokens.
pub(crate) fn finished(
    alloc: Global,
    tokens: &Tokens<'_>,
    kind: StatementKind,
    is_open: bool,
) -> Result<Ended, Refusal>
    ensures { Reads (gives (grammar.ended kind is_open) tokens.now) result tokens.now }
{
    Ok(Ended {
        kind: Boxed::new(alloc, kind)?,
        is_open,
    })
}

/// A statement with its end: no `else` belongs to it.
pub(crate) fn whole(
    alloc: Global,
    tokens: &Tokens<'_>,
    kind: StatementKind,
) -> Result<Ended, Refusal>
    ensures { Reads (gives (grammar.whole kind) tokens.now) result tokens.now }
{
    finished(alloc, tokens, kind, false)
}

/// A statement that begins on this line.
pub(crate) fn stated(alloc: Global, line: u32, ended: Ended) -> Result<Body, Memory>
    ensures { IfOk result (λ body. body ≡ grammar.stated line ended) }
{
    let Ended { kind, is_open } = ended;
    let kind = kind.into_inner();
    let statement = Boxed::new(alloc, Statement { line, kind })?;
    Ok(Body { statement, is_open })
}

/// The statements with that of a body behind them.
pub(crate) fn with_body(all: Items<Statement>, body: Body) -> Result<Items<Statement>, Memory>
    ensures { IfOk result (λ more. more ≡ all ++ body.statement ∷ []) }
{
    with(all, body.statement.into_inner())
}
