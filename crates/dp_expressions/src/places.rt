//! Places and their indices.

ghost use Rattle.std.specs.Prelude.{◌<◌};
ghost use Rattle.dp_token_rules.specs.inner.Input.{Reads};
ghost use Rattle.dp_expressions.specs.inner.Readers as spec;
ghost use Rattle.dp_expressions.specs.inner.Readers.{within};

use crate::grammar::Grammar;
use crate::inside::Inside;
use crate::kept::both;
use crate::operand::Part;
use crate::pieces::{Below, Index};
use dp_bytes::Items;
use dp_token_rules::{Refusal, Terminal, Tokens, Word, many};
use dp_tree::{Expression, Place};
use std::alloc::Global;

impl<R: Inside> Grammar<R> {
    /// An index in its brackets.
    #[tactic(auto, unfolding(crate::specs::inner::Readers::index))]
    pub(crate) fn index(&self, tokens: &mut Tokens<'_>) -> Result<Expression, Refusal>
        ensures { Reads (within spec.index self.now tokens.old) result tokens.new }
    {
        self.enter(tokens)?;
        tokens.mark(Terminal::Of(Word::OpenBracket))?;
        let at = self.inner(tokens, Part::Whole)?;
        let (at, _) = both(at, tokens.mark(Terminal::Of(Word::CloseBracket)))?;
        Ok(at)
    }

    /// Reads any number of indices, each in its brackets.
    #[tactic(auto, unfolding(crate::specs::inner::Readers::indices))]
    pub(crate) fn indices(&self, tokens: &mut Tokens<'_>) -> Result<Items<Expression>, Refusal>
        ensures { Reads (within spec.indices self.now tokens.old) result tokens.new }
    {
        many(
            self.alloc(),
            tokens,
            Terminal::Of(Word::OpenBracket),
            &Index { grammar: self },
        )
    }

    /// Reads a place: a variable that a program may name, and its indices.
    #[tactic(auto, unfolding(crate::specs::inner::Readers::place_rule))]
    pub(crate) fn place_rule(&self, tokens: &mut Tokens<'_>) -> Result<Place, Refusal>
        ensures { Reads (within spec.place_rule self.now tokens.old) result tokens.new }
    {
        let name = tokens.variable(self.alloc())?;
        let indices = self.indices(tokens)?;
        Ok(Place { name, indices })
    }

    /// A place one level down.
    #[tactic(auto, unfolding(crate::specs::inner::Readers::place_below))]
    pub(crate) fn place_below(&self, tokens: &mut Tokens<'_>) -> Result<Place, Refusal>
        requires { 0 < self.now }
        ensures { Reads (within spec.place_below self.now tokens.old) result tokens.new }
    {
        let name = tokens.variable(self.alloc())?;
        let indices = many(
            self.alloc(),
            tokens,
            Terminal::Of(Word::OpenBracket),
            &Below {
                grammar: self,
                part: Part::Index,
            },
        )?;
        Ok(Place { name, indices })
    }
}
