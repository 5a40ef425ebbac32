//! What expressions begin with.

ghost use Rattle.std.specs.Prelude.{◌<◌, []};
ghost use Rattle.dp_token_rules.specs.inner.Input.{Reads, closed};
ghost use Rattle.dp_expressions.specs.inner.Readers as spec;
ghost use Rattle.dp_expressions.specs.inner.Readers.{within};

use crate::grammar::Grammar;
use crate::inside::Inside;
use crate::kept::both;
use crate::nodes::named;
use crate::operand::{Operand, Part};
use dp_bytes::Items;
use dp_token_rules::{Refusal, Terminal, Tokens, Word, none, with};
use dp_tree::Expression;
use std::alloc::Global;
use std::ops::ControlFlow;

impl<R: Inside> Grammar<R> {
    /// An index or, where an assignment may follow, `[]`.
    #[tactic(auto, unfolding(crate::specs::inner::Readers::index_or_push))]
    fn index_or_push(
        &self,
        tokens: &mut Tokens<'_>,
        name: &[u8],
        found: Items<Expression>,
    ) -> Result<ControlFlow<Operand, Items<Expression>>, Refusal>
        ensures { Reads (within spec.index_or_push self.now name.now found tokens.old) result tokens.new }
    {
        self.enter(tokens)?;
        tokens.mark(Terminal::Of(Word::OpenBracket))?;
        if tokens.sees(Terminal::Of(Word::CloseBracket)) {
            tokens.mark(Terminal::Of(Word::CloseBracket))?;
            let place = named(self.alloc(), name, found)?;
            return Ok(ControlFlow::Break(Operand::Push(place)));
        }
        let at = self.inner(tokens, Part::Whole)?;
        let (at, _) = both(at, tokens.mark(Terminal::Of(Word::CloseBracket)))?;
        Ok(ControlFlow::Continue(with(found, at)?))
    }

    /// The indices of a variable with the next one, or the operand that they make where none comes next.
    fn opening_step(
        &self,
        tokens: &mut Tokens<'_>,
        name: &[u8],
        found: Items<Expression>,
    ) -> Result<ControlFlow<Operand, Items<Expression>>, Refusal>
        ensures { Reads (within spec.opening_step self.now name.now found tokens.old) result tokens.new }
    {
        if tokens.sees(Terminal::Of(Word::OpenBracket)) {
            return self.index_or_push(tokens, name, found);
        }
        let place = named(self.alloc(), name, found)?;
        Ok(ControlFlow::Break(self.step_last(tokens, place)?))
    }

    /// Reads what begins with this variable: its indices, and `[]`, `++` or `--` behind them.
    #[tactic(auto, using(dp_grammar::proofs::Turns::turns))]
    fn opening_from(&self, tokens: &mut Tokens<'_>, name: &[u8]) -> Result<Operand, Refusal>
        ensures { Reads (closed (within spec.opening_step self.now name.now) [] tokens.old) result tokens.new }
    {
        let mut state = none(self.alloc());
        for _turn in 0..tokens.left() + 1 {
            match self.opening_step(tokens, name, state)? {
                ControlFlow::Continue(more) => state = more,
                ControlFlow::Break(all) => return Ok(all),
            }
        }
        Err(tokens.refuse())
    }

    /// What an expression begins with, where it is a variable.
    #[tactic(auto, unfolding(crate::specs::inner::Readers::opening_place))]
    fn opening_place(&self, tokens: &mut Tokens<'_>) -> Result<Operand, Refusal>
        ensures { Reads (within spec.opening_place self.now tokens.old) result tokens.new }
    {
        let name = tokens.variable_name()?;
        self.opening_from(tokens, name)
    }

    /// What an expression begins with.
    #[tactic(auto, unfolding(crate::specs::inner::Readers::opening))]
    pub(crate) fn opening(&self, tokens: &mut Tokens<'_>) -> Result<Operand, Refusal>
        ensures { Reads (within spec.opening self.now tokens.old) result tokens.new }
    {
        if tokens.sees(Terminal::Variable) {
            return self.opening_place(tokens);
        }
        Ok(Operand::Other(self.other(tokens)?))
    }
}
