//! Pieces of lists that are parts of expressions.

ghost use Rattle.std.specs.Prelude.{◌<◌, ⊤};
ghost use Rattle.dp_expressions.specs.inner.Readers as spec;
ghost use Rattle.dp_expressions.specs.inner.Readers.{within};

use crate::grammar::Grammar;
use crate::inside::Inside;
use crate::operand::Part;
use dp_token_rules::{Piece, Refusal, Tokens};
use dp_tree::{Expression, Item, Place};
use std::alloc::Global;

/// An index.
#[derive(Drop)]
pub(crate) struct Index<'g, R: Inside> {
    pub(crate) grammar: &'g Grammar<R>,
}

/// A part of an expression one level down.
#[derive(Drop)]
pub(crate) struct Below<'g, R: Inside> {
    pub(crate) grammar: &'g Grammar<R>,
    pub(crate) part: Part,
}

/// An item of an array literal.
#[derive(Drop)]
pub(crate) struct Entry<'g, R: Inside> {
    pub(crate) grammar: &'g Grammar<R>,
}

/// A place one level down.
#[derive(Drop)]
pub(crate) struct PlaceBelow<'g, R: Inside> {
    pub(crate) grammar: &'g Grammar<R>,
}

impl<'g, R: Inside> Piece<Expression> for Index<'g, R> {
    ghost reads = { λ self. within spec.index self.grammar.now };

    ghost ready = { λ self. ⊤ };

    fn read(&self, tokens: &mut Tokens<'_>) -> Result<Expression, Refusal> {
        self.grammar.index(tokens)
    }
}

impl<'g, R: Inside> Piece<Expression> for Below<'g, R> {
    ghost reads = { λ self. spec.below self.grammar.now self.part };

    ghost ready = { λ self. 0 < self.grammar.now };

    fn read(&self, tokens: &mut Tokens<'_>) -> Result<Expression, Refusal> {
        self.grammar.inner(tokens, self.part)
    }
}

impl<'g, R: Inside> Piece<Item> for Entry<'g, R> {
    ghost reads = { λ self. within spec.item_rule self.grammar.now };

    ghost ready = { λ self. 0 < self.grammar.now };

    fn read(&self, tokens: &mut Tokens<'_>) -> Result<Item, Refusal> {
        self.grammar.item_rule(tokens)
    }
}

impl<'g, R: Inside> Piece<Place> for PlaceBelow<'g, R> {
    ghost reads = { λ self. within spec.place_below self.grammar.now };

    ghost ready = { λ self. 0 < self.grammar.now };

    fn read(&self, tokens: &mut Tokens<'_>) -> Result<Place, Refusal> {
        self.grammar.place_below(tokens)
    }
}
