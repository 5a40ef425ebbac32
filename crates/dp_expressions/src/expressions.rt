//! Expressions.

ghost use Rattle.std.specs.Prelude.{◌<◌, ◌-◌};
ghost use Rattle.dp_token_rules.specs.inner.Input.{Reads};
ghost use Rattle.dp_expressions.specs.inner.Readers as spec;
ghost use Rattle.dp_expressions.specs.inner.Readers.{within};

use crate::grammar::Grammar;
use crate::inside::{Called, Inside};
use crate::ladders::RANKS;
use crate::nodes::{assigned, included, pushed, value_of};
use crate::operand::{Operand, Part};
use crate::token_values::{assignment, assignment_in, begins_expression, inclusion, inclusion_in};
use dp_token_rules::{Refusal, Terminal, Tokens, Word};
use dp_tree::{Boxed, Expression, Place};
use std::alloc::Global;

impl<R: Inside> Grammar<R> {
    /// What stands right of a `??`, with the operator.
    fn coalesce_right(&self, tokens: &mut Tokens<'_>) -> Result<Expression, Refusal>
        ensures { Reads (within spec.coalesce_right self.now tokens.old) result tokens.new }
    {
        self.enter(tokens)?;
        tokens.mark(Terminal::Of(Word::Coalesce))?;
        self.inner(tokens, Part::Coalesce)
    }

    /// What an operand makes with a `??` behind it and its right side; itself where no `??` comes next.
    #[tactic(auto, unfolding(crate::specs::inner::Readers::coalesce_rest))]
    fn coalesce_rest(
        &self,
        tokens: &mut Tokens<'_>,
        left: Expression,
    ) -> Result<Expression, Refusal>
        ensures { Reads (within spec.coalesce_rest self.now left tokens.old) result tokens.new }
    {
        if !tokens.sees(Terminal::Of(Word::Coalesce)) {
            return Ok(left);
        }
        let left = Boxed::new(self.alloc(), left)?;
        let right = self.coalesce_right(tokens)?;
        Ok(Expression::Coalesce(left, Boxed::new(self.alloc(), right)?))
    }

    /// What may stand right of a `??`.
    #[tactic(auto, unfolding(crate::specs::inner::Readers::coalesce))]
    fn coalesce(&self, tokens: &mut Tokens<'_>) -> Result<Expression, Refusal>
        ensures { Reads (within spec.coalesce self.now tokens.old) result tokens.new }
    {
        let left = self.ladder(tokens, &RANKS)?;
        self.coalesce_rest(tokens, left)
    }

    /// The middle of a conditional, which may be missing.
    #[tactic(auto, unfolding(crate::specs::inner::Readers::middle))]
    fn middle(&self, tokens: &mut Tokens<'_>) -> Result<Option<Boxed<Expression>>, Refusal>
        ensures { Reads (within spec.middle self.now tokens.old) result tokens.new }
    {
        if !begins_expression(tokens.peek()) {
            return Ok(None);
        }
        self.enter(tokens)?;
        let found = self.inner(tokens, Part::Whole)?;
        Ok(Some(Boxed::new(self.alloc(), found)?))
    }

    /// The parts of a conditional behind its test.
    #[tactic(auto, unfolding(crate::specs::inner::Readers::branches))]
    fn branches(&self, tokens: &mut Tokens<'_>, test: Expression) -> Result<Expression, Refusal>
        ensures { Reads (within spec.branches self.now test tokens.old) result tokens.new }
    {
        let test = Boxed::new(self.alloc(), test)?;
        tokens.mark(Terminal::Of(Word::Question))?;
        let middle = self.middle(tokens)?;
        tokens.mark(Terminal::Of(Word::Colon))?;
        let last = self.coalesce(tokens)?;
        Ok(Expression::Conditional(test, middle, Boxed::new(self.alloc(), last)?))
    }

    /// What a test makes with a `?` behind it and the branches; itself where no `?` comes next.
    #[tactic(auto, unfolding(crate::specs::inner::Readers::conditional_rest))]
    fn conditional_rest(
        &self,
        tokens: &mut Tokens<'_>,
        test: Expression,
    ) -> Result<Expression, Refusal>
        ensures { Reads (within spec.conditional_rest self.now test tokens.old) result tokens.new }
    {
        if tokens.sees(Terminal::Of(Word::Question)) {
            self.branches(tokens, test)
        } else {
            Ok(test)
        }
    }

    /// An expression whose first operand was read before.
    #[tactic(auto, unfolding(crate::specs::inner::Readers::going_on))]
    fn going_on(&self, tokens: &mut Tokens<'_>, first: Expression) -> Result<Expression, Refusal>
        ensures { Reads (within spec.going_on self.now first tokens.old) result tokens.new }
    {
        let left = self.ladder_from(tokens, &RANKS, first)?;
        let test = self.coalesce_rest(tokens, left)?;
        self.conditional_rest(tokens, test)
    }

    /// Reads an `include` or a `require`, and the expression behind it one level down.
    #[tactic(auto, unfolding(crate::specs::inner::Readers::included))]
    fn included(&self, tokens: &mut Tokens<'_>) -> Result<Expression, Refusal>
        ensures { Reads (within spec.included self.now tokens.old) result tokens.new }
    {
        self.enter(tokens)?;
        let how = inclusion(tokens)?;
        let of = self.inner(tokens, Part::Whole)?;
        Ok(included(self.alloc(), how, of)?)
    }

    /// Reads the `=` behind a place with `[]`, and the expression behind it one level down.
    #[tactic(auto, unfolding(crate::specs::inner::Readers::pushed))]
    fn pushed(&self, tokens: &mut Tokens<'_>, to: Place) -> Result<Expression, Refusal>
        ensures { Reads (within spec.pushed self.now to tokens.old) result tokens.new }
    {
        self.enter(tokens)?;
        tokens.mark(Terminal::Of(Word::Assign))?;
        let from = self.inner(tokens, Part::Whole)?;
        Ok(pushed(self.alloc(), to, from)?)
    }

    /// Reads the operator of an assignment to a place, and the expression behind it one level down.
    #[tactic(auto, unfolding(crate::specs::inner::Readers::assignment))]
    fn assignment(&self, tokens: &mut Tokens<'_>, to: Place) -> Result<Expression, Refusal>
        ensures { Reads (within spec.assignment self.now to tokens.old) result tokens.new }
    {
        self.enter(tokens)?;
        let how = assignment(tokens)?;
        let from = self.inner(tokens, Part::Whole)?;
        Ok(assigned(self.alloc(), to, how, from)?)
    }

    /// Reads an expression behind what it begins with: an assignment to that place, or operators and operands.
    #[tactic(auto, unfolding(crate::specs::inner::Readers::rest_of))]
    fn rest_of(&self, tokens: &mut Tokens<'_>, opening: Operand) -> Result<Expression, Refusal>
        ensures { Reads (within spec.rest_of self.now opening tokens.old) result tokens.new }
    {
        match opening {
            Operand::Push(to) => self.pushed(tokens, to),
            Operand::Other(first) => self.going_on(tokens, first),
            Operand::Place(to) if assignment_in(tokens.peek()).is_some() => self.assignment(
                tokens, to,
            ),
            Operand::Place(to) => self.going_on(tokens, value_of(self.alloc(), to)?),
        }
    }

    /// Reads an expression: an inclusion, or what it begins with and what stands behind that.
    #[tactic(auto, unfolding(crate::specs::inner::Readers::whole))]
    fn whole(&self, tokens: &mut Tokens<'_>) -> Result<Expression, Refusal>
        ensures { Reads (within spec.whole self.now tokens.old) result tokens.new }
    {
        if inclusion_in(tokens.peek()).is_some() {
            return self.included(tokens);
        }
        let opening = self.opening(tokens)?;
        self.rest_of(tokens, opening)
    }

    /// Reads this part of an expression with the levels of nesting that are left.
    #[tactic(auto, unfolding(crate::specs::inner::Readers::reading, crate::specs::inner::Readers::reads_part))]
    pub(crate) fn part(&self, tokens: &mut Tokens<'_>, part: Part) -> Result<Expression, Refusal>
        ensures { Reads (spec.reading self.now part tokens.old) result tokens.new }
    {
        match part {
            Part::Whole => self.whole(tokens),
            Part::Coalesce => self.coalesce(tokens),
            Part::Alone => self.alone(tokens),
            Part::Index => self.index(tokens),
        }
    }
}

/// A part, where this reads one level down.
pub(crate) fn part_over<R: Inside + Drop>(
    alloc: Global,
    tokens: &mut Tokens<'_>,
    level: usize,
    part: Part,
    inner: R,
) -> Result<Expression, Refusal>
    requires { R.ready inner level }
    ensures { Reads (spec.reading level part tokens.old) result tokens.new }
{
    Grammar::new(alloc, level, inner).part(tokens, part)
}

/// A place, where this reads one level down.
#[tactic(auto, unfolding(crate::specs::inner::Readers::reading_place))]
pub(crate) fn place_over<R: Inside + Drop>(
    alloc: Global,
    tokens: &mut Tokens<'_>,
    level: usize,
    inner: R,
) -> Result<Place, Refusal>
    requires { R.ready inner level }
    ensures { Reads (spec.reading_place level tokens.old) result tokens.new }
{
    Grammar::new(alloc, level, inner).place_rule(tokens)
}

/// Reads a part of an expression with at most so many levels of nesting, and leaves what stands behind it. A refusal
/// names the first token that is wrong or too deep, or is out of memory.
pub fn expression(
    alloc: Global,
    tokens: &mut Tokens<'_>,
    level: usize,
    part: Part,
) -> Result<Expression, Refusal>
    ensures { Reads (spec.reading level part tokens.old) result tokens.new }
{
    part_over(
        alloc,
        tokens,
        level,
        part,
        Called {
            function: expression,
        },
    )
}

/// Reads a place with at most so many levels of nesting, and leaves what stands behind it. Refusals are as for
/// [`expression`].
pub fn place(alloc: Global, tokens: &mut Tokens<'_>, level: usize) -> Result<Place, Refusal>
    ensures { Reads (spec.reading_place level tokens.old) result tokens.new }
{
    place_over(
        alloc,
        tokens,
        level,
        Called {
            function: expression,
        },
    )
}
