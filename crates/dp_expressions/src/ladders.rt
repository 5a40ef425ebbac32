//! Operands and the operators between them.

ghost use Rattle.std.specs.Prelude.{◌≡◌, ◌<◌};
ghost use Rattle.dp_token_rules.specs.inner.Input.{Reads};
ghost use Rattle.dp_expressions.specs.inner.Readers as spec;
ghost use Rattle.dp_expressions.specs.inner.Readers.{within};
ghost use Rattle.dp_expressions.specs.Grammar as grammar;

use crate::grammar::Grammar;
use crate::inside::Inside;
use crate::kept::both;
use crate::nodes::chained;
use crate::operand::Part;
use crate::rank::Rank;
use crate::token_values::{is_single, operator, operator_in};
use dp_bytes::Items;
use dp_token_rules::{Refusal, Tokens, none, with};
use dp_tree::{Expression, Link};
use std::alloc::Global;
use std::ops::ControlFlow;

/// The ranks, those that bind more tightly later.
pub(crate) const RANKS: [Rank; 7] = [
    Rank::Or,
    Rank::And,
    Rank::Equality,
    Rank::Comparison,
    Rank::Concatenation,
    Rank::Sum,
    Rank::Product,
];

/// Whether a further operator of this rank may join operands.
fn may_go_on(rank: Rank, links: &[Link]) -> bool
    ensures { result ≡ grammar.may_go_on rank links.now }
{
    match links {
        [] => true,
        [_, ..] => !is_single(rank),
    }
}

impl<R: Inside> Grammar<R> {
    /// Reads an operator of this rank, and behind it an operand of the ranks that bind more tightly.
    #[cycle(ladder)]
    #[tactic(auto, unfolding(crate::specs::inner::Readers::link_of))]
    fn link_of(&self, tokens: &mut Tokens<'_>, more: &[Rank], rank: Rank) -> Result<Link, Refusal>
        ensures { Reads (spec.link_of (spec.ladder more.now (within spec.alone self.now)) rank tokens.old) result
            tokens.new }
    {
        let operator = operator(tokens, rank)?;
        let operand = self.ladder(tokens, more)?;
        Ok(Link { operator, operand })
    }

    /// The links with the next one of this rank, or the end where none comes next or may follow.
    #[cycle(ladder)]
    fn links_step(
        &self,
        tokens: &mut Tokens<'_>,
        more: &[Rank],
        rank: Rank,
        all: Items<Link>,
    ) -> Result<ControlFlow<Items<Link>, Items<Link>>, Refusal>
        ensures { Reads (spec.links_step (spec.ladder more.now (within spec.alone self.now)) rank all tokens.old)
            result tokens.new }
    {
        if may_go_on(rank, all.as_slice()) && operator_in(rank, tokens.peek()).is_some() {
            let link = self.link_of(tokens, more, rank)?;
            return Ok(ControlFlow::Continue(with(all, link)?));
        }
        Ok(ControlFlow::Break(all))
    }

    /// Reads the operators of this rank with their operands, up to where none comes next or may follow.
    #[cycle(ladder)]
    #[tactic(auto, using(dp_grammar::proofs::Turns::turns), unfolding(crate::specs::inner::Readers::links_of))]
    fn links_of(
        &self,
        tokens: &mut Tokens<'_>,
        more: &[Rank],
        rank: Rank,
    ) -> Result<Items<Link>, Refusal>
        ensures { Reads (spec.links_of (spec.ladder more.now (within spec.alone self.now)) rank tokens.old) result
            tokens.new }
    {
        let mut state = none(self.alloc());
        for _turn in 0..tokens.left() + 1 {
            match self.links_step(tokens, more, rank, state)? {
                ControlFlow::Continue(next) => state = next,
                ControlFlow::Break(all) => return Ok(all),
            }
        }
        Err(tokens.refuse())
    }

    /// Operands joined by operators of these ranks, the loosest first.
    #[cycle(ladder)]
    #[tactic(auto, unfolding(crate::specs::inner::Readers::ladder))]
    pub(crate) fn ladder(
        &self,
        tokens: &mut Tokens<'_>,
        ranks: &[Rank],
    ) -> Result<Expression, Refusal>
        ensures { Reads (spec.ladder ranks.now (within spec.alone self.now) tokens.old) result tokens.new }
    {
        let [rank, more @ ..] = ranks else {
            return self.alone(tokens);
        };
        let first = self.ladder(tokens, more)?;
        let (first, links) = both(first, self.links_of(tokens, more, *rank))?;
        Ok(chained(self.alloc(), first, links)?)
    }

    /// The same, where the first operand was read before.
    #[tactic(auto, unfolding(crate::specs::inner::Readers::ladder_from))]
    pub(crate) fn ladder_from(
        &self,
        tokens: &mut Tokens<'_>,
        ranks: &[Rank],
        first: Expression,
    ) -> Result<Expression, Refusal>
        ensures { Reads (spec.ladder_from ranks.now (within spec.alone self.now) first tokens.old) result tokens.new }
    {
        let [rank, more @ ..] = ranks else {
            return Ok(first);
        };
        let left = self.ladder_from(tokens, more, first)?;
        let (left, links) = both(left, self.links_of(tokens, more, *rank))?;
        Ok(chained(self.alloc(), left, links)?)
    }
}
