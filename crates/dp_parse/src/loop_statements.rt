//! Loops of programs.

ghost use Rattle.std.specs.Prelude.{suc, ◌<◌};
ghost use Rattle.dp_token_rules.specs.inner.Input.{Reads};
ghost use Rattle.dp_parse.specs.inner.Within as limited;
ghost use Rattle.dp_parse.specs.inner.Within.{within};
ghost use Rattle.dp_parse.specs.inner.StatementRules as spec;

use crate::ended::{Body, Ended, finished, whole};
use crate::grammar::Statements;
use crate::inside::Inside;
use crate::levels::{any_expressions, expression};
use dp_bytes::Bytes;
use dp_expressions::both;
use dp_token_rules::{Refusal, Terminal, Tokens, Word};
use dp_tree::{Binding, Expression, StatementKind};
use std::alloc::Global;

/// What a `foreach` binds whose first variable was read: the key where `=>` comes next, else the value.
#[tactic(auto, unfolding(crate::specs::inner::StatementRules::bound_rest))]
fn bound_rest(alloc: Global, tokens: &mut Tokens<'_>, first: Bytes) -> Result<Binding, Refusal>
    ensures { Reads (spec.bound_rest first tokens.old) result tokens.new }
{
    if tokens.sees(Terminal::Of(Word::Arrow)) {
        tokens.mark(Terminal::Of(Word::Arrow))?;
        let value = tokens.variable(alloc)?;
        return Ok(Binding {
            key: Some(first),
            value,
        });
    }
    Ok(Binding {
        key: None,
        value: first,
    })
}

/// The variables that a `foreach` binds.
#[tactic(auto, unfolding(crate::specs::inner::StatementRules::bound))]
fn bound(alloc: Global, tokens: &mut Tokens<'_>) -> Result<Binding, Refusal>
    ensures { Reads (spec.bound tokens.old) result tokens.new }
{
    let first = tokens.variable(alloc)?;
    bound_rest(alloc, tokens, first)
}

impl<R: Inside> Statements<R> {
    /// The body of a loop.
    fn looped(&self, tokens: &mut Tokens<'_>) -> Result<Body, Refusal>
        requires some { 0 < self.now.0 }
        ensures { Reads (spec.head_body (limited.body self.now.0 (suc self.now.1)) tokens.old) result tokens.new }
    {
        self.head_body(tokens, self.one_loop_more())
    }

    /// Reads a `while` with its test and its body.
    #[tactic(auto, unfolding(crate::specs::inner::StatementRules::while_rule, crate::specs::inner::StatementRules::loop_body))]
    pub(crate) fn while_rule(&self, tokens: &mut Tokens<'_>) -> Result<Ended, Refusal>
        ensures { Reads (within spec.while_rule self.now tokens.old) result tokens.new }
    {
        self.enter(tokens)?;
        tokens.mark(Terminal::Of(Word::While))?;
        let test = self.test(tokens)?;
        let (test, found) = both(test, self.looped(tokens))?;
        let Body { statement, is_open } = found;
        let body = statement;
        finished(
            self.alloc(),
            tokens,
            StatementKind::While { test, body },
            is_open,
        )
    }

    /// Reads a `do` with its body, its `while` and test behind that, and its `;`.
    #[tactic(auto, unfolding(crate::specs::inner::StatementRules::do_while))]
    pub(crate) fn do_while(&self, tokens: &mut Tokens<'_>) -> Result<Ended, Refusal>
        ensures { Reads (within spec.do_while self.now tokens.old) result tokens.new }
    {
        self.enter(tokens)?;
        tokens.mark(Terminal::Of(Word::Do))?;
        let found = self.looped(tokens)?;
        let body = found.statement;
        let line = tokens.mark(Terminal::Of(Word::While))?;
        let test = self.test(tokens)?;
        let (test, _) = both(test, tokens.mark(Terminal::Of(Word::Semicolon)))?;
        whole(
            self.alloc(),
            tokens,
            StatementKind::DoWhile { body, line, test },
        )
    }

    /// Reads a `for` with its three lists of expressions and its body.
    #[tactic(auto, unfolding(crate::specs::inner::StatementRules::for_rule, crate::specs::inner::StatementRules::loop_body))]
    pub(crate) fn for_rule(&self, tokens: &mut Tokens<'_>) -> Result<Ended, Refusal>
        ensures { Reads (within spec.for_rule self.now tokens.old) result tokens.new }
    {
        self.enter(tokens)?;
        tokens.mark(Terminal::Of(Word::For))?;
        tokens.mark(Terminal::Of(Word::OpenParenthesis))?;
        let before = any_expressions(self.alloc(), tokens, Terminal::Of(Word::Semicolon))?;
        let tests = any_expressions(self.alloc(), tokens, Terminal::Of(Word::Semicolon))?;
        let after = any_expressions(self.alloc(), tokens, Terminal::Of(Word::CloseParenthesis))?;
        let Body { statement, is_open } = self.looped(tokens)?;
        let kind = StatementKind::For {
            before,
            tests,
            after,
            body: statement,
        };
        finished(self.alloc(), tokens, kind, is_open)
    }

    /// Reads a `foreach` with its subject, the variables that it binds, and its body.
    #[tactic(auto, unfolding(crate::specs::inner::StatementRules::foreach))]
    pub(crate) fn foreach(&self, tokens: &mut Tokens<'_>) -> Result<Ended, Refusal>
        ensures { Reads (within spec.foreach self.now tokens.old) result tokens.new }
    {
        self.enter(tokens)?;
        tokens.mark(Terminal::Of(Word::Foreach))?;
        tokens.mark(Terminal::Of(Word::OpenParenthesis))?;
        let subject = expression(self.alloc(), tokens)?;
        self.foreach_bound(tokens, subject)
    }

    /// A `foreach` behind its subject.
    fn foreach_bound(&self, tokens: &mut Tokens<'_>, subject: Expression) -> Result<Ended, Refusal>
        requires { 0 < self.now.0 }
        ensures { Reads (within spec.foreach_bound self.now subject tokens.old) result tokens.new }
    {
        let (subject, _) = both(subject, tokens.mark(Terminal::Of(Word::As)))?;
        let (subject, binding) = both(subject, bound(self.alloc(), tokens))?;
        let (subject, _) = both(subject, tokens.mark(Terminal::Of(Word::CloseParenthesis)))?;
        self.foreach_body(tokens, subject, binding)
    }

    /// A `foreach` behind its head.
    #[tactic(auto, unfolding(crate::specs::inner::StatementRules::loop_body))]
    fn foreach_body(
        &self,
        tokens: &mut Tokens<'_>,
        subject: Expression,
        binding: Binding,
    ) -> Result<Ended, Refusal>
        requires { 0 < self.now.0 }
        ensures { Reads (within spec.foreach_body self.now subject binding tokens.old) result tokens.new }
    {
        let (subject, found) = both(subject, self.looped(tokens))?;
        let Body { statement, is_open } = found;
        let kind = StatementKind::Foreach {
            subject,
            binding,
            body: statement,
        };
        finished(self.alloc(), tokens, kind, is_open)
    }
}
