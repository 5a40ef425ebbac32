//! Functions, files, and expressions by themselves.

ghost use Rattle.std.specs.Prelude.{◌≡◌, IfOk};
ghost use Rattle.dp_token_rules.specs.inner.Input.{Reads};
ghost use Rattle.dp_parse.specs.Limits as limits;
ghost use Rattle.dp_parse.specs.inner.Within as limited;
ghost use Rattle.dp_parse.specs.inner.StatementRules as spec;
ghost use Rattle.dp_parse.specs.Statements as grammar;

use crate::constants::constants;
use crate::ended::{Body, Parts, with_body};
use crate::inside::Called;
use crate::levels::{BODY_LEVELS, expression};
use crate::parameters::parameters;
use crate::statements::{bodies_over, statement};
use dp_bytes::{Items, Memory};
use dp_expressions::both;
use dp_token_rules::{Refusal, Terminal, Tokens, Word, enter, none, with};
use dp_tree::{Expression, Function, Statement};
use std::alloc::Global;
use std::ops::ControlFlow;

/// A statement outside of loops.
fn outermost(alloc: Global, tokens: &mut Tokens<'_>) -> Result<Body, Refusal>
    ensures { Reads (spec.statement limits.expression_levels limits.body_levels 0 tokens.old) result tokens.new }
{
    statement(alloc, tokens, BODY_LEVELS, 0)
}

/// The statements of a function up to its closing brace.
fn function_body(alloc: Global, tokens: &mut Tokens<'_>) -> Result<Items<Statement>, Refusal>
    ensures { Reads (spec.bodies (limited.body limits.body_levels 0) tokens.old) result tokens.new }
{
    bodies_over(
        alloc,
        tokens,
        BODY_LEVELS,
        Called {
            function: statement,
        },
    )
}

/// A function.
#[tactic(auto, unfolding(crate::specs::inner::StatementRules::function_rule))]
pub(crate) fn function(alloc: Global, tokens: &mut Tokens<'_>) -> Result<Function, Refusal>
    ensures { Reads (spec.function_rule limits.limits tokens.old) result tokens.new }
{
    enter(BODY_LEVELS, tokens)?;
    let line = tokens.mark(Terminal::Of(Word::Function))?;
    let name = tokens.name(alloc)?;
    tokens.mark(Terminal::Of(Word::OpenParenthesis))?;
    let parameters = parameters(alloc, tokens)?;
    tokens.mark(Terminal::Of(Word::OpenBrace))?;
    let body = function_body(alloc, tokens)?;
    Ok(Function {
        line,
        name,
        parameters,
        body,
    })
}

/// The parts of a file with the statement of a body behind its others.
fn with_statement(parts: Parts, body: Body) -> Result<Parts, Memory>
    ensures { IfOk result (λ more. more ≡ grammar.with_statement parts body) }
{
    let Parts {
        body: before,
        functions,
    } = parts;
    Ok(Parts {
        body: with_body(before, body)?,
        functions,
    })
}

/// The parts of a file with a function behind its others.
fn with_function(parts: Parts, function: Function) -> Result<Parts, Memory>
    ensures { IfOk result (λ more. more ≡ grammar.with_function parts function) }
{
    let Parts { body, functions } = parts;
    Ok(Parts {
        body,
        functions: with(functions, function)?,
    })
}

/// The parts of a file with the next function, `const` or statement, or the end where no token is left.
fn file_step(
    alloc: Global,
    tokens: &mut Tokens<'_>,
    parts: Parts,
) -> Result<ControlFlow<Parts, Parts>, Refusal>
    ensures { Reads (spec.file_step limits.limits parts tokens.old) result tokens.new }
{
    if tokens.sees(Terminal::End) {
        return Ok(ControlFlow::Break(parts));
    }
    if tokens.sees(Terminal::Of(Word::Function)) {
        let function = function(alloc, tokens)?;
        return Ok(ControlFlow::Continue(with_function(parts, function)?));
    }
    if tokens.sees(Terminal::Const) {
        let body = constants(alloc, tokens)?;
        return Ok(ControlFlow::Continue(with_statement(parts, body)?));
    }
    let body = outermost(alloc, tokens)?;
    Ok(ControlFlow::Continue(with_statement(parts, body)?))
}

/// The statements and the functions of a file, up to the end.
#[tactic(auto, using(dp_grammar::proofs::Turns::turns), unfolding(crate::specs::inner::StatementRules::file))]
pub(crate) fn file(alloc: Global, tokens: &mut Tokens<'_>) -> Result<Parts, Refusal>
    ensures { Reads (spec.file limits.limits tokens.old) result tokens.new }
{
    let mut state = Parts {
        body: none(alloc),
        functions: none(alloc),
    };
    for _turn in 0..tokens.left() + 1 {
        match file_step(alloc, tokens, state)? {
            ControlFlow::Continue(more) => state = more,
            ControlFlow::Break(all) => return Ok(all),
        }
    }
    Err(tokens.refuse())
}

/// What was found, where the end comes next; refuses at any token.
#[tactic(auto, unfolding(crate::specs::inner::StatementRules::at_end, dp_token_rules::specs::inner::Input::refuse))]
fn at_end(tokens: &mut Tokens<'_>, found: Expression) -> Result<Expression, Refusal>
    ensures { Reads (spec.at_end found tokens.old) result tokens.new }
{
    let end = if tokens.sees(Terminal::End) {
        Ok(())
    } else {
        Err(tokens.refuse())
    };
    let (found, _) = both(found, end)?;
    Ok(found)
}

/// A `;` or nothing, and the end.
#[tactic(auto, unfolding(crate::specs::inner::StatementRules::semicolon))]
fn semicolon(tokens: &mut Tokens<'_>, found: Expression) -> Result<Expression, Refusal>
    ensures { Reads (spec.semicolon found tokens.old) result tokens.new }
{
    if !tokens.sees(Terminal::Of(Word::Semicolon)) {
        return at_end(tokens, found);
    }
    let (found, _) = both(found, tokens.mark(Terminal::Of(Word::Semicolon)))?;
    at_end(tokens, found)
}

/// An expression by itself, possibly with a `;` behind it, up to the end.
#[tactic(auto, unfolding(crate::specs::inner::StatementRules::expression_text))]
pub(crate) fn expression_text(alloc: Global, tokens: &mut Tokens<'_>) -> Result<Expression, Refusal>
    ensures { Reads (spec.expression_text limits.expression_levels tokens.old) result tokens.new }
{
    let found = expression(alloc, tokens)?;
    semicolon(tokens, found)
}
