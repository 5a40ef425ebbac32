//! What reads the parts of an expression one level of nesting down, as a value.

ghost use Rattle.std.specs.Prelude.{ℕ, ◌<◌, ◌-◌};
ghost use Rattle.dp_token_rules.specs.inner.Input.{Reads};
ghost use Rattle.dp_expressions.specs.inner.NestedReader.{ReadsInside};
ghost use Rattle.dp_expressions.specs.inner.Readers.{below};

use crate::operand::Part;
use dp_token_rules::{Refusal, Tokens};
use dp_tree::Expression;
use std::alloc::Global;

/// What reads the parts of an expression one level down.
pub(crate) trait Inside {
    /// That it may be called, where so many levels are left.
    ghost ready: { Self → ℕ → Type 0 };

    /// Reads a part one level down, where so many levels are left.
    fn read(
        &self,
        alloc: Global,
        tokens: &mut Tokens<'_>,
        level: usize,
        part: Part,
    ) -> Result<Expression, Refusal>
        requires some { 0 < level }
        requires ready { ready self.now level }
        ensures { Reads (below level part tokens.old) result tokens.new };
}

/// A function that reads a part with as many levels as it is given.
#[derive(Drop)]
pub(crate) struct Called<F> {
    pub(crate) function: F,
}

impl<F: Fn(Global, &mut Tokens<'_>, usize, Part) -> Result<Expression, Refusal>> Inside
    for Called<F> {
    ghost ready = { λ self level. ReadsInside level (F.pre self.function) (F.post self.function) };

    fn read(
        &self,
        alloc: Global,
        tokens: &mut Tokens<'_>,
        level: usize,
        part: Part,
    ) -> Result<Expression, Refusal> {
        (self.function)(alloc, tokens, level - 1, part)
    }
}
