//! `if` with its arms.

ghost use Rattle.std.specs.Prelude.{◌≡◌, ◌+◌, ◌<◌, IfOk};
ghost use Rattle.dp_token_rules.specs.inner.Input.{Reads};
ghost use Rattle.dp_parse.specs.inner.Within.{within};
ghost use Rattle.dp_parse.specs.inner.StatementRules as spec;
ghost use Rattle.dp_parse.specs.Statements as grammar;

use crate::ended::{Body, Ended, finished};
use crate::grammar::Statements;
use crate::inside::Inside;
use crate::levels::expression;
use dp_bytes::{Items, Memory};
use dp_expressions::both;
use dp_token_rules::{Refusal, Terminal, Tokens, Word, none, with};
use dp_tree::{Arm, Expression, StatementKind};
use std::alloc::Global;
use std::ops::ControlFlow;

/// The arms with one more, and whether its body is open.
fn with_arm(
    arms: Items<Arm>,
    line: u32,
    test: Expression,
    body: Body,
) -> Result<(Items<Arm>, bool), Memory>
    ensures { IfOk result (λ more. more ≡ grammar.with_arm arms line test body) }
{
    let Body { statement, is_open } = body;
    let body = statement.into_inner();
    Ok((with(arms, Arm { line, test, body })?, is_open))
}

impl<R: Inside> Statements<R> {
    /// An expression in parentheses.
    #[tactic(auto, unfolding(crate::specs::inner::StatementRules::head_test))]
    pub(crate) fn test(&self, tokens: &mut Tokens<'_>) -> Result<Expression, Refusal>
        ensures { Reads (within spec.head_test self.now tokens.old) result tokens.new }
    {
        tokens.mark(Terminal::Of(Word::OpenParenthesis))?;
        let test = expression(self.alloc(), tokens)?;
        let (test, _) = both(test, tokens.mark(Terminal::Of(Word::CloseParenthesis)))?;
        Ok(test)
    }

    /// The arms so far, and the next one behind the word on this line.
    #[tactic(auto, unfolding(crate::specs::inner::StatementRules::next_arm))]
    fn next_arm(
        &self,
        tokens: &mut Tokens<'_>,
        arms: Items<Arm>,
        line: u32,
    ) -> Result<(Items<Arm>, bool), Refusal>
        requires some { 0 < self.now.0 }
        ensures { Reads (within spec.next_arm self.now arms line tokens.old) result tokens.new }
    {
        let test = self.test(tokens)?;
        let (test, body) = both(test, self.head_body(tokens, self.loops()))?;
        Ok(with_arm(arms, line, test, body)?)
    }

    /// The body behind an `else`.
    #[tactic(auto, unfolding(crate::specs::inner::StatementRules::otherwise))]
    fn otherwise(&self, tokens: &mut Tokens<'_>, arms: Items<Arm>) -> Result<Ended, Refusal>
        requires some { 0 < self.now.0 }
        ensures { Reads (within spec.otherwise self.now arms tokens.old) result tokens.new }
    {
        let Body { statement, is_open } = self.head_body(tokens, self.loops())?;
        let otherwise = Some(statement);
        let kind = StatementKind::If { arms, otherwise };
        finished(self.alloc(), tokens, kind, is_open)
    }

    /// What stands behind an `else` on this line: a further arm, or the last body.
    #[tactic(auto, unfolding(crate::specs::inner::StatementRules::behind_else))]
    fn behind_else(
        &self,
        tokens: &mut Tokens<'_>,
        arms: Items<Arm>,
        line: u32,
    ) -> Result<ControlFlow<Ended, (Items<Arm>, bool)>, Refusal>
        requires some { 0 < self.now.0 }
        ensures { Reads (within spec.behind_else self.now arms line tokens.old) result tokens.new }
    {
        if tokens.sees(Terminal::Of(Word::If)) {
            tokens.mark(Terminal::Of(Word::If))?;
            return Ok(ControlFlow::Continue(self.next_arm(tokens, arms, line)?));
        }
        Ok(ControlFlow::Break(self.otherwise(tokens, arms)?))
    }

    /// The arms of an `if` with the next one, or the whole statement where no further arm comes.
    fn arms_step(
        &self,
        tokens: &mut Tokens<'_>,
        arms: Items<Arm>,
        is_open: bool,
    ) -> Result<ControlFlow<Ended, (Items<Arm>, bool)>, Refusal>
        requires some { 0 < self.now.0 }
        ensures { Reads (within spec.arms_step self.now (arms, is_open) tokens.old) result tokens.new }
    {
        if !is_open && tokens.sees(Terminal::Of(Word::ElseIf)) {
            let line = tokens.mark(Terminal::Of(Word::ElseIf))?;
            return Ok(ControlFlow::Continue(self.next_arm(tokens, arms, line)?));
        }
        if !is_open && tokens.sees(Terminal::Of(Word::Else)) {
            let line = tokens.mark(Terminal::Of(Word::Else))?;
            return self.behind_else(tokens, arms, line);
        }
        let otherwise = None;
        let kind = StatementKind::If { arms, otherwise };
        Ok(ControlFlow::Break(finished(self.alloc(), tokens, kind, true)?))
    }

    /// What stands behind the first arm.
    #[tactic(auto, using(dp_grammar::proofs::Turns::turns), unfolding(crate::specs::inner::StatementRules::arms))]
    fn arms(&self, tokens: &mut Tokens<'_>, first: (Items<Arm>, bool)) -> Result<Ended, Refusal>
        requires some { 0 < self.now.0 }
        ensures { Reads (within spec.arms self.now first tokens.old) result tokens.new }
    {
        let mut state = first;
        for _turn in 0..tokens.left() + 1 {
            match self.arms_step(tokens, state.0, state.1)? {
                ControlFlow::Continue(more) => state = more,
                ControlFlow::Break(all) => return Ok(all),
            }
        }
        Err(tokens.refuse())
    }

    /// Reads an `if` with its arms, and the body of its `else` if it has one.
    #[tactic(auto, unfolding(crate::specs::inner::StatementRules::if_rule))]
    pub(crate) fn if_rule(&self, tokens: &mut Tokens<'_>) -> Result<Ended, Refusal>
        ensures { Reads (within spec.if_rule self.now tokens.old) result tokens.new }
    {
        self.enter(tokens)?;
        let line = tokens.mark(Terminal::Of(Word::If))?;
        let first = self.next_arm(tokens, none(self.alloc()), line)?;
        self.arms(tokens, first)
    }
}
