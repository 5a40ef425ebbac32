//! The parameters of functions.

ghost use Rattle.std.specs.Prelude.{◌++◌, ◌∷◌, []};
ghost use Rattle.dp_token_rules.specs.inner.Input.{Reads, closed, made};
ghost use Rattle.dp_parse.specs.inner.Parameters as spec;
ghost use Rattle.dp_token_rules.specs.inner.ListReaders as lists;

use crate::names::Names;
use dp_bytes::{Bytes, Items};
use dp_token_rules::{Refusal, Terminal, Tokens, Word};
use std::alloc::Global;
use std::ops::ControlFlow;

/// The names with a parameter behind them.
fn parameter(alloc: Global, tokens: &mut Tokens<'_>, found: Names) -> Result<Names, Refusal>
    ensures { Reads (made (spec.checked found) (λ name. found ++ name ∷ []) tokens.old) result tokens.new }
{
    let mut names = found;
    let refusal = tokens.refuse();
    let name = tokens.variable(alloc)?;
    if names.add(name)? {
        Ok(names)
    } else {
        Err(refusal)
    }
}

/// The next parameter, or the end behind a comma.
fn behind_comma(
    alloc: Global,
    tokens: &mut Tokens<'_>,
    found: Names,
) -> Result<ControlFlow<Names, Names>, Refusal>
    ensures { Reads (lists.behind_comma spec.checked (Terminal.Of Word.CloseParenthesis) found tokens.old)
        result tokens.new }
{
    if tokens.sees(Terminal::Of(Word::CloseParenthesis)) {
        tokens.mark(Terminal::Of(Word::CloseParenthesis))?;
        return Ok(ControlFlow::Break(found));
    }
    Ok(ControlFlow::Continue(parameter(alloc, tokens, found)?))
}

/// The names with the next parameter behind a comma, or the end at the `)`, also behind a comma.
fn comma_step(
    alloc: Global,
    tokens: &mut Tokens<'_>,
    found: Names,
) -> Result<ControlFlow<Names, Names>, Refusal>
    ensures { Reads (lists.comma_step spec.checked (Terminal.Of Word.CloseParenthesis) found tokens.old)
        result tokens.new }
{
    if tokens.sees(Terminal::Of(Word::Comma)) {
        tokens.mark(Terminal::Of(Word::Comma))?;
        return behind_comma(alloc, tokens, found);
    }
    tokens.mark(Terminal::Of(Word::CloseParenthesis))?;
    Ok(ControlFlow::Break(found))
}

/// The first parameter with those behind it, up to the `)`; one comma may stand before that.
#[tactic(auto, using(dp_grammar::proofs::Turns::turns))]
fn comma_turns(alloc: Global, tokens: &mut Tokens<'_>, first: Names) -> Result<Names, Refusal>
    ensures { Reads (closed (lists.comma_step spec.checked (Terminal.Of Word.CloseParenthesis)) first tokens.old) result
        tokens.new }
{
    let mut state = first;
    for _turn in 0..tokens.left() + 1 {
        match comma_step(alloc, tokens, state)? {
            ControlFlow::Continue(more) => state = more,
            ControlFlow::Break(all) => return Ok(all),
        }
    }
    Err(tokens.refuse())
}

/// Reads one parameter or more up to the `)`; refuses at a name that one before it has.
#[tactic(auto, unfolding(dp_token_rules::specs::inner::ListReaders::some_items))]
fn some_parameters(alloc: Global, tokens: &mut Tokens<'_>) -> Result<Names, Refusal>
    ensures { Reads (lists.some_items spec.checked (Terminal.Of Word.CloseParenthesis) tokens.old) result tokens.new }
{
    let first = parameter(alloc, tokens, Names::new(alloc))?;
    comma_turns(alloc, tokens, first)
}

/// Reads any number of parameters up to the `)`; refuses at a name that one before it has.
#[tactic(auto, unfolding(dp_token_rules::specs::inner::ListReaders::any_items))]
fn checked_parameters(alloc: Global, tokens: &mut Tokens<'_>) -> Result<Items<Bytes>, Refusal>
    ensures { Reads (lists.any_items spec.checked (Terminal.Of Word.CloseParenthesis) tokens.old) result tokens.new }
{
    if tokens.sees(Terminal::Of(Word::CloseParenthesis)) {
        tokens.mark(Terminal::Of(Word::CloseParenthesis))?;
        return Ok(Items::of(Vec::new(alloc)));
    }
    let names = some_parameters(alloc, tokens)?;
    Ok(names.into_items(alloc)?)
}

/// The parameters of a function behind its `(`, and the `)`.
#[tactic(auto, using(crate::proofs::ParameterLemmas::parameters_are))]
pub(crate) fn parameters(alloc: Global, tokens: &mut Tokens<'_>) -> Result<Items<Bytes>, Refusal>
    ensures { Reads (lists.any_items spec.parameter (Terminal.Of Word.CloseParenthesis) tokens.old) result tokens.new }
{
    checked_parameters(alloc, tokens)
}
