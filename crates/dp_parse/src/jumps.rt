//! Statements without a body: jumps out of loops, functions and programs, and what is declared or removed.

ghost use Rattle.std.specs.Prelude.{⊤, ◌<◌};
ghost use Rattle.dp_token_rules.specs.inner.Input.{Reads};
ghost use Rattle.dp_parse.specs.inner.Within.{within};
ghost use Rattle.dp_token_rules.specs.inner.Input as input;
ghost use Rattle.dp_token_rules.specs.inner.ListReaders as lists;
ghost use Rattle.dp_parse.specs.inner.StatementRules as spec;

use crate::ended::{Ended, whole};
use crate::grammar::Statements;
use crate::inside::Inside;
use crate::levels::{expression, some_places};
use dp_bytes::{Bytes, Items};
use dp_expressions::both;
use dp_token_rules::{Piece, Refusal, Terminal, Tokens, Word, plain_items};
use dp_tree::{Expression, StatementKind};
use std::alloc::Global;

/// A variable in a list.
#[derive(Drop)]
struct ListedVariable {
    alloc: Global,
}

impl Piece<Bytes> for ListedVariable {
    ghost reads = { λ _. input.variable };

    ghost ready = { λ _. ⊤ };

    fn read(&self, tokens: &mut Tokens<'_>) -> Result<Bytes, Refusal> {
        tokens.variable(self.alloc)
    }
}

/// One variable or more, and what closes them.
fn variables(alloc: Global, tokens: &mut Tokens<'_>) -> Result<Items<Bytes>, Refusal>
    ensures { Reads (lists.plain_items (λ _. input.variable) (Terminal.Of Word.Semicolon) tokens.old) result
        tokens.new }
{
    plain_items(
        alloc,
        tokens,
        Terminal::Of(Word::Semicolon),
        &ListedVariable { alloc },
    )
}

/// Reads a `global` of one variable or more, up to its `;`.
#[tactic(auto, unfolding(crate::specs::inner::StatementRules::global_rule))]
pub(crate) fn global_rule(alloc: Global, tokens: &mut Tokens<'_>) -> Result<Ended, Refusal>
    ensures { Reads (spec.global_rule tokens.old) result tokens.new }
{
    tokens.mark(Terminal::Of(Word::Global))?;
    let names = variables(alloc, tokens)?;
    whole(alloc, tokens, StatementKind::Global(names))
}

/// Reads an `exit` or a `die`, for its line.
#[tactic(auto, unfolding(crate::specs::inner::StatementRules::exit_word))]
fn exit_word(tokens: &mut Tokens<'_>) -> Result<u32, Refusal>
    ensures { Reads (spec.exit_word tokens.old) result tokens.new }
{
    if tokens.sees(Terminal::Of(Word::Exit)) {
        tokens.mark(Terminal::Of(Word::Exit))
    } else {
        tokens.mark(Terminal::Of(Word::Die))
    }
}

impl<R: Inside> Statements<R> {
    /// How many loops a jump is about: 1, or a number up to that of the loops around it.
    #[tactic(auto, unfolding(crate::specs::inner::StatementRules::levels))]
    fn levels(&self, tokens: &mut Tokens<'_>) -> Result<u32, Refusal>
        ensures { Reads (within spec.levels self.now tokens.old) result tokens.new }
    {
        if tokens.sees(Terminal::Number) {
            tokens.number_up_to(self.loops())
        } else {
            Ok(1)
        }
    }

    /// Reads how many loops a jump is about, and its `;`.
    #[tactic(auto, unfolding(crate::specs::inner::StatementRules::loops_rule))]
    fn loops_rule(&self, tokens: &mut Tokens<'_>) -> Result<u32, Refusal>
        ensures { Reads (within spec.loops_rule self.now tokens.old) result tokens.new }
    {
        let count = self.levels(tokens)?;
        tokens.mark(Terminal::Of(Word::Semicolon))?;
        Ok(count)
    }

    /// Reads a `break` up to its `;`; refuses outside of loops, and at a number above that of the loops.
    #[tactic(auto, unfolding(crate::specs::inner::StatementRules::break_rule, dp_token_rules::specs::inner::Input::refuse))]
    pub(crate) fn break_rule(&self, tokens: &mut Tokens<'_>) -> Result<Ended, Refusal>
        ensures { Reads (within spec.break_rule self.now tokens.old) result tokens.new }
    {
        if self.loops() == 0 {
            return Err(tokens.refuse());
        }
        tokens.mark(Terminal::Of(Word::Break))?;
        let count = self.loops_rule(tokens)?;
        whole(self.alloc(), tokens, StatementKind::Break(count))
    }

    /// Reads a `continue` up to its `;`; refuses outside of loops, and at a number above that of the loops.
    #[tactic(auto, unfolding(crate::specs::inner::StatementRules::continue_rule, dp_token_rules::specs::inner::Input::refuse))]
    pub(crate) fn continue_rule(&self, tokens: &mut Tokens<'_>) -> Result<Ended, Refusal>
        ensures { Reads (within spec.continue_rule self.now tokens.old) result tokens.new }
    {
        if self.loops() == 0 {
            return Err(tokens.refuse());
        }
        tokens.mark(Terminal::Of(Word::Continue))?;
        let count = self.loops_rule(tokens)?;
        whole(self.alloc(), tokens, StatementKind::Continue(count))
    }

    /// An expression, or none, and what closes it.
    #[tactic(auto, unfolding(crate::specs::inner::StatementRules::maybe_up_to))]
    fn maybe_up_to(
        &self,
        tokens: &mut Tokens<'_>,
        close: Terminal,
    ) -> Result<Option<Expression>, Refusal>
        ensures { Reads (within spec.maybe_up_to self.now close tokens.old) result tokens.new }
    {
        if tokens.sees(close) {
            tokens.mark(close)?;
            return Ok(None);
        }
        let value = expression(self.alloc(), tokens)?;
        let (value, _) = both(value, tokens.mark(close))?;
        Ok(Some(value))
    }

    /// Reads a `return` up to its `;`, with its value if it has one.
    #[tactic(auto, unfolding(crate::specs::inner::StatementRules::return_rule))]
    pub(crate) fn return_rule(&self, tokens: &mut Tokens<'_>) -> Result<Ended, Refusal>
        ensures { Reads (within spec.return_rule self.now tokens.old) result tokens.new }
    {
        tokens.mark(Terminal::Of(Word::Return))?;
        let value = self.maybe_up_to(tokens, Terminal::Of(Word::Semicolon))?;
        whole(self.alloc(), tokens, StatementKind::Return(value))
    }

    /// Reads an `unset` of one place or more, up to its `;`.
    #[tactic(auto, unfolding(crate::specs::inner::StatementRules::unset))]
    pub(crate) fn unset(&self, tokens: &mut Tokens<'_>) -> Result<Ended, Refusal>
        ensures { Reads (within spec.unset self.now tokens.old) result tokens.new }
    {
        tokens.mark(Terminal::Of(Word::Unset))?;
        tokens.mark(Terminal::Of(Word::OpenParenthesis))?;
        let places = some_places(self.alloc(), tokens, Terminal::Of(Word::CloseParenthesis))?;
        tokens.mark(Terminal::Of(Word::Semicolon))?;
        whole(self.alloc(), tokens, StatementKind::Unset(places))
    }

    /// Reads the value of an `exit` in its parentheses, if it has them and a value in them.
    #[tactic(auto, unfolding(crate::specs::inner::StatementRules::exit_value))]
    fn exit_value(&self, tokens: &mut Tokens<'_>) -> Result<Option<Expression>, Refusal>
        ensures { Reads (within spec.exit_value self.now tokens.old) result tokens.new }
    {
        if tokens.sees(Terminal::Of(Word::OpenParenthesis)) {
            tokens.mark(Terminal::Of(Word::OpenParenthesis))?;
            self.maybe_up_to(tokens, Terminal::Of(Word::CloseParenthesis))
        } else {
            Ok(None)
        }
    }

    /// Reads an `exit` or a `die` up to its `;`, with its value if it has one.
    #[tactic(auto, unfolding(crate::specs::inner::StatementRules::exit))]
    pub(crate) fn exit(&self, tokens: &mut Tokens<'_>) -> Result<Ended, Refusal>
        ensures { Reads (within spec.exit self.now tokens.old) result tokens.new }
    {
        exit_word(tokens)?;
        let value = self.exit_value(tokens)?;
        let (value, _) = both(value, tokens.mark(Terminal::Of(Word::Semicolon)))?;
        whole(self.alloc(), tokens, StatementKind::Exit(value))
    }
}
