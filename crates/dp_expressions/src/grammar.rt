//! The rules of expressions as one value: how many levels of nesting are left, and what reads a part one level down.
//! Each rule is a method of it, so that it is proved by itself.

ghost use Rattle.std.specs.Prelude.{◌≡◌, ◌<◌, OnOk};
ghost use Rattle.dp_token_rules.specs.inner.Input.{Reads, enter};
ghost use Rattle.dp_expressions.specs.inner.Readers.{below};

use crate::inside::Inside;
use crate::operand::Part;
use dp_token_rules::{Refusal, Tokens, enter};
use dp_tree::Expression;
use std::alloc::Global;
use std::marker::Model;

/// The rules of expressions with so many levels of nesting left. A clause sees that number alone.
#[derive(Drop)]
pub(crate) struct Grammar<R: Inside> {
    alloc: Global,
    level: usize,
    inner: R,
}

impl<R: Inside> Model for Grammar<R> {
    ghost use Rattle.std.specs.Prelude.{ℕ};

    ghost Value = { ℕ };

    ghost view = { λ g. g.level };

    ghost invariant = { λ g. R.ready g.inner g.level };
}

impl<R: Inside> Grammar<R> {
    /// The rules with so many levels of nesting left, over what reads a part one level down.
    pub(crate) fn new(alloc: Global, level: usize, inner: R) -> Grammar<R>
        requires { R.ready inner level }
        ensures { result ≡ level }
    {
        Grammar {
            alloc,
            level,
            inner,
        }
    }

    /// The allocator of the trees that the rules make.
    pub(crate) fn alloc(&self) -> Global {
        self.alloc
    }

    /// Goes on where a level of nesting is left.
    pub(crate) fn enter(&self, tokens: &Tokens<'_>) -> Result<(), Refusal>
        ensures reads { Reads (enter self.now tokens.now) result tokens.now }
        ensures some { OnOk result (0 < self.now) }
    {
        enter(self.level, tokens)
    }

    /// A part of an expression one level down.
    pub(crate) fn inner(&self, tokens: &mut Tokens<'_>, part: Part) -> Result<Expression, Refusal>
        requires { 0 < self.now }
        ensures { Reads (below self.now part tokens.old) result tokens.new }
    {
        self.inner.read(self.alloc, tokens, self.level, part)
    }
}
