//! Lists with commas between their items, and any number of pieces.

ghost use Rattle.std.specs.Prelude.{◌≡◌, ◌++◌, ◌∷◌, [], IfOk};
ghost use Rattle.dp_token_rules.specs.inner.Input.{Reader, Reads, closed};
ghost use Rattle.dp_token_rules.specs.Terminals as terminals;
ghost use Rattle.dp_token_rules.specs.inner.ListReaders as spec;

use crate::cursor::Tokens;
use crate::terminal::Terminal;
use dp_bytes::{Items, Memory};
use dp_grammar::Refusal;
use dp_lexer::Word;
use std::alloc::Global;
use std::ops::ControlFlow;

/// A list without items.
pub fn none<T: Drop>(alloc: Global) -> Items<T>
    ensures { result ≡ [] }
{
    Items::of(Vec::new(alloc))
}

/// The list with this item behind it, without a copy.
pub fn with<T: Drop>(all: Items<T>, item: T) -> Result<Items<T>, Memory>
    ensures { IfOk result (λ more. more ≡ all ++ item ∷ []) }
{
    let mut values = all.into_vec();
    values.push(item)?;
    Ok(Items::of(values))
}

/// What reads a piece of a list.
pub trait Piece<T> {
    /// What it reads.
    ghost reads: { Self → Reader T };
    /// That it may be called.
    ghost ready: { Self → Type 0 };

    /// Reads the next piece.
    fn read(&self, tokens: &mut Tokens<'_>) -> Result<T, Refusal>
        requires { ready self.now }
        ensures { Reads (reads self.now tokens.old) result tokens.new };
}

/// The next item, or the end behind a comma.
fn behind_comma<T: Drop, P: Piece<T>>(
    tokens: &mut Tokens<'_>,
    close: Terminal,
    item: &P,
    all: Items<T>,
) -> Result<ControlFlow<Items<T>, Items<T>>, Refusal>
    requires { P.ready item.now }
    ensures { Reads (spec.behind_comma (λ _. P.reads item.now) close all tokens.old) result tokens.new }
{
    if tokens.sees(close) {
        tokens.mark(close)?;
        return Ok(ControlFlow::Break(all));
    }
    let value = item.read(tokens)?;
    Ok(ControlFlow::Continue(with(all, value)?))
}

/// The items with the next one behind a comma, or the end at what closes them, also behind a comma.
fn comma_step<T: Drop, P: Piece<T>>(
    tokens: &mut Tokens<'_>,
    close: Terminal,
    item: &P,
    all: Items<T>,
) -> Result<ControlFlow<Items<T>, Items<T>>, Refusal>
    requires { P.ready item.now }
    ensures { Reads (spec.comma_step (λ _. P.reads item.now) close all tokens.old) result tokens.new }
{
    if tokens.sees(Terminal::Of(Word::Comma)) {
        tokens.mark(Terminal::Of(Word::Comma))?;
        return behind_comma(tokens, close, item, all);
    }
    tokens.mark(close)?;
    Ok(ControlFlow::Break(all))
}

/// One item or more with commas between them, possibly one behind the last, and what closes them.
#[tactic(auto, unfolding(crate::specs::inner::ListReaders::some_items))]
pub fn some_items<T: Drop, P: Piece<T>>(
    alloc: Global,
    tokens: &mut Tokens<'_>,
    close: Terminal,
    item: &P,
) -> Result<Items<T>, Refusal>
    requires { P.ready item.now }
    ensures { Reads (spec.some_items (λ _. P.reads item.now) close tokens.old) result tokens.new }
{
    let first = item.read(tokens)?;
    comma_turns(tokens, close, item, with(none(alloc), first)?)
}

/// The first item with those behind it, up to what closes them; one comma may stand before that.
#[tactic(auto, using(dp_grammar::proofs::Turns::turns))]
fn comma_turns<T: Drop, P: Piece<T>>(
    tokens: &mut Tokens<'_>,
    close: Terminal,
    item: &P,
    first: Items<T>,
) -> Result<Items<T>, Refusal>
    requires { P.ready item.now }
    ensures { Reads (closed (spec.comma_step (λ _. P.reads item.now) close) first tokens.old) result tokens.new }
{
    let mut state = first;
    for _turn in 0..tokens.left() + 1 {
        match comma_step(tokens, close, item, state)? {
            ControlFlow::Continue(more) => state = more,
            ControlFlow::Break(all) => return Ok(all),
        }
    }
    Err(tokens.refuse())
}

/// Any number of items with commas between them, possibly one behind the last, and what closes them.
#[tactic(auto, unfolding(crate::specs::inner::ListReaders::any_items))]
pub fn any_items<T: Drop, P: Piece<T>>(
    alloc: Global,
    tokens: &mut Tokens<'_>,
    close: Terminal,
    item: &P,
) -> Result<Items<T>, Refusal>
    requires { P.ready item.now }
    ensures { Reads (spec.any_items (λ _. P.reads item.now) close tokens.old) result tokens.new }
{
    if tokens.sees(close) {
        tokens.mark(close)?;
        return Ok(none(alloc));
    }
    some_items(alloc, tokens, close, item)
}

/// The items with the next one behind a comma, or the end at what closes them.
fn plain_step<T: Drop, P: Piece<T>>(
    tokens: &mut Tokens<'_>,
    close: Terminal,
    item: &P,
    all: Items<T>,
) -> Result<ControlFlow<Items<T>, Items<T>>, Refusal>
    requires { P.ready item.now }
    ensures { Reads (spec.plain_step (λ _. P.reads item.now) close all tokens.old) result tokens.new }
{
    if tokens.sees(Terminal::Of(Word::Comma)) {
        tokens.mark(Terminal::Of(Word::Comma))?;
        let value = item.read(tokens)?;
        return Ok(ControlFlow::Continue(with(all, value)?));
    }
    tokens.mark(close)?;
    Ok(ControlFlow::Break(all))
}

/// The first item with those behind it, each behind a comma, up to what closes them.
#[tactic(auto, using(dp_grammar::proofs::Turns::turns))]
fn plain_turns<T: Drop, P: Piece<T>>(
    tokens: &mut Tokens<'_>,
    close: Terminal,
    item: &P,
    first: Items<T>,
) -> Result<Items<T>, Refusal>
    requires { P.ready item.now }
    ensures { Reads (closed (spec.plain_step (λ _. P.reads item.now) close) first tokens.old) result tokens.new }
{
    let mut state = first;
    for _turn in 0..tokens.left() + 1 {
        match plain_step(tokens, close, item, state)? {
            ControlFlow::Continue(more) => state = more,
            ControlFlow::Break(all) => return Ok(all),
        }
    }
    Err(tokens.refuse())
}

/// One item or more with commas between them, and what closes them.
#[tactic(auto, unfolding(crate::specs::inner::ListReaders::plain_items))]
pub fn plain_items<T: Drop, P: Piece<T>>(
    alloc: Global,
    tokens: &mut Tokens<'_>,
    close: Terminal,
    item: &P,
) -> Result<Items<T>, Refusal>
    requires { P.ready item.now }
    ensures { Reads (spec.plain_items (λ _. P.reads item.now) close tokens.old) result tokens.new }
{
    let first = item.read(tokens)?;
    plain_turns(tokens, close, item, with(none(alloc), first)?)
}

/// Any number of items with commas between them, and what closes them.
#[tactic(auto, unfolding(crate::specs::inner::ListReaders::any_plain_items))]
pub fn any_plain_items<T: Drop, P: Piece<T>>(
    alloc: Global,
    tokens: &mut Tokens<'_>,
    close: Terminal,
    item: &P,
) -> Result<Items<T>, Refusal>
    requires { P.ready item.now }
    ensures { Reads (spec.any_plain_items (λ _. P.reads item.now) close tokens.old) result tokens.new }
{
    if tokens.sees(close) {
        tokens.mark(close)?;
        return Ok(none(alloc));
    }
    plain_items(alloc, tokens, close, item)
}

/// Any number of pieces, each where a token of this sort comes next.
#[tactic(auto, using(dp_grammar::proofs::Turns::turns), unfolding(crate::specs::inner::ListReaders::many))]
pub fn many<T: Drop, P: Piece<T>>(
    alloc: Global,
    tokens: &mut Tokens<'_>,
    begin: Terminal,
    piece: &P,
) -> Result<Items<T>, Refusal>
    requires { P.ready piece.now }
    ensures { Reads (spec.many (terminals.is begin) (P.reads piece.now) tokens.old) result tokens.new }
{
    let mut state = none(alloc);
    for _turn in 0..tokens.left() + 1 {
        match many_step(tokens, begin, piece, state)? {
            ControlFlow::Continue(more) => state = more,
            ControlFlow::Break(all) => return Ok(all),
        }
    }
    Err(tokens.refuse())
}

/// The pieces with the next one, or the end where no token of this sort comes next.
fn many_step<T: Drop, P: Piece<T>>(
    tokens: &mut Tokens<'_>,
    begin: Terminal,
    piece: &P,
    all: Items<T>,
) -> Result<ControlFlow<Items<T>, Items<T>>, Refusal>
    requires { P.ready piece.now }
    ensures { Reads (spec.many_step (terminals.is begin) (P.reads piece.now) all tokens.old) result tokens.new }
{
    if !tokens.sees(begin) {
        return Ok(ControlFlow::Break(all));
    }
    let value = piece.read(tokens)?;
    Ok(ControlFlow::Continue(with(all, value)?))
}
