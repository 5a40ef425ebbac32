//! What reads a body one level down, as a value.

ghost use Rattle.std.specs.Prelude.{ℕ, ◌+◌, ◌-◌, ◌<◌, ◌≤◌};
ghost use Rattle.dp_token_rules.specs.inner.Input.{Reads};
ghost use Rattle.dp_parse.specs.inner.NestedBody.{ReadsBodies};
ghost use Rattle.dp_parse.specs.inner.Within as limited;

use crate::ended::Body;
use dp_token_rules::{Refusal, Tokens};
use std::alloc::Global;

/// What reads a body one level down.
pub(crate) trait Inside {
    /// That it may be called, where so many levels are left, in so many loops.
    ghost ready: { Self → ℕ → ℕ → Type 0 };

    /// Reads a body, where so many levels are left: in as many loops as stand around it, which are at most one more.
    fn read(
        &self,
        alloc: Global,
        tokens: &mut Tokens<'_>,
        level: usize,
        loops: u32,
        around: u32,
    ) -> Result<Body, Refusal>
        requires some { 0 < level }
        requires near { around ≤ loops + 1 }
        requires ready { ready self.now level loops }
        ensures { Reads (limited.body level around tokens.old) result tokens.new };
}

/// A function that reads a body with as many levels as it is given, in so many loops.
#[derive(Drop)]
pub(crate) struct Called<F> {
    pub(crate) function: F,
}

impl<F: Fn(Global, &mut Tokens<'_>, usize, u32) -> Result<Body, Refusal>> Inside for Called<F> {
    ghost ready = { λ self level loops. ReadsBodies level loops (F.pre self.function) (F.post self.function) };

    fn read(
        &self,
        alloc: Global,
        tokens: &mut Tokens<'_>,
        level: usize,
        _loops: u32,
        around: u32,
    ) -> Result<Body, Refusal> {
        (self.function)(alloc, tokens, level - 1, around)
    }
}
