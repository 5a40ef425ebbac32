//! Statements.

ghost use Rattle.std.specs.Prelude.{◌+◌, ◌<◌, ◌≤◌, ◌^◌};
ghost use Rattle.dp_token_rules.specs.inner.Input.{Reads};
ghost use Rattle.dp_parse.specs.Limits as limits;
ghost use Rattle.dp_parse.specs.inner.Within as limited;
ghost use Rattle.dp_parse.specs.inner.Within.{within};
ghost use Rattle.dp_parse.specs.inner.StatementRules as spec;

use crate::ended::{Body, Ended, stated, whole, with_body};
use crate::grammar::Statements;
use crate::inside::{Called, Inside};
use crate::jumps::global_rule;
use crate::levels::{expression, some_expressions};
use dp_bytes::Items;
use dp_expressions::both;
use dp_token_rules::{Refusal, Terminal, Tokens, Word, none};
use dp_tree::{Statement, StatementKind};
use std::alloc::Global;
use std::ops::ControlFlow;

/// Reads a `;` that is a statement by itself.
#[tactic(auto, unfolding(crate::specs::inner::StatementRules::empty))]
fn empty(alloc: Global, tokens: &mut Tokens<'_>) -> Result<Ended, Refusal>
    ensures { Reads (spec.empty tokens.old) result tokens.new }
{
    tokens.mark(Terminal::Of(Word::Semicolon))?;
    whole(alloc, tokens, StatementKind::Empty)
}

impl<R: Inside> Statements<R> {
    /// The statements with the next one, or the end at the closing brace.
    fn bodies_step(
        &self,
        tokens: &mut Tokens<'_>,
        loops: u32,
        all: Items<Statement>,
    ) -> Result<ControlFlow<Items<Statement>, Items<Statement>>, Refusal>
        requires some { 0 < self.now.0 }
        requires near { loops ≤ self.now.1 + 1 }
        ensures { Reads (spec.bodies_step (limited.body self.now.0 loops) all tokens.old) result tokens.new }
    {
        if tokens.sees(Terminal::Of(Word::CloseBrace)) {
            tokens.mark(Terminal::Of(Word::CloseBrace))?;
            return Ok(ControlFlow::Break(all));
        }
        let body = self.body(tokens, loops)?;
        Ok(ControlFlow::Continue(with_body(all, body)?))
    }

    /// Statements in so many loops, up to the closing brace.
    #[tactic(auto, using(dp_grammar::proofs::Turns::turns), unfolding(crate::specs::inner::StatementRules::bodies))]
    pub(crate) fn bodies(
        &self,
        tokens: &mut Tokens<'_>,
        loops: u32,
    ) -> Result<Items<Statement>, Refusal>
        requires some { 0 < self.now.0 }
        requires near { loops ≤ self.now.1 + 1 }
        ensures { Reads (spec.bodies (limited.body self.now.0 loops) tokens.old) result tokens.new }
    {
        let mut state = none(self.alloc());
        for _turn in 0..tokens.left() + 1 {
            match self.bodies_step(tokens, loops, state)? {
                ControlFlow::Continue(more) => state = more,
                ControlFlow::Break(all) => return Ok(all),
            }
        }
        Err(tokens.refuse())
    }

    /// Statements in braces, in so many loops.
    #[tactic(auto, unfolding(crate::specs::inner::StatementRules::braced))]
    fn braced(&self, tokens: &mut Tokens<'_>, loops: u32) -> Result<Ended, Refusal>
        requires some { 0 < self.now.0 }
        requires near { loops ≤ self.now.1 + 1 }
        ensures { Reads (spec.braced (limited.body self.now.0 loops) tokens.old) result tokens.new }
    {
        tokens.mark(Terminal::Of(Word::OpenBrace))?;
        let all = self.bodies(tokens, loops)?;
        whole(self.alloc(), tokens, StatementKind::Block(all))
    }

    /// The body of a head, in so many loops. Its braces are no block of their own.
    #[tactic(auto, unfolding(crate::specs::inner::StatementRules::head_body, crate::specs::inner::StatementRules::on_its_line))]
    pub(crate) fn head_body(&self, tokens: &mut Tokens<'_>, loops: u32) -> Result<Body, Refusal>
        requires some { 0 < self.now.0 }
        requires near { loops ≤ self.now.1 + 1 }
        ensures { Reads (spec.head_body (limited.body self.now.0 loops) tokens.old) result tokens.new }
    {
        if tokens.sees(Terminal::Of(Word::OpenBrace)) {
            let line = tokens.line();
            let found = self.braced(tokens, loops)?;
            return Ok(stated(self.alloc(), line, found)?);
        }
        self.body(tokens, loops)
    }

    /// Reads an expression that is a statement, up to its `;`.
    #[tactic(auto, unfolding(crate::specs::inner::StatementRules::perform))]
    fn perform(&self, tokens: &mut Tokens<'_>) -> Result<Ended, Refusal>
        ensures { Reads (within spec.perform self.now tokens.old) result tokens.new }
    {
        let value = expression(self.alloc(), tokens)?;
        let (value, _) = both(value, tokens.mark(Terminal::Of(Word::Semicolon)))?;
        whole(self.alloc(), tokens, StatementKind::Expression(value))
    }

    /// Reads an `echo` of one expression or more, up to its `;`.
    #[tactic(auto, unfolding(crate::specs::inner::StatementRules::echo))]
    fn echo(&self, tokens: &mut Tokens<'_>) -> Result<Ended, Refusal>
        ensures { Reads (within spec.echo self.now tokens.old) result tokens.new }
    {
        tokens.mark(Terminal::Of(Word::Echo))?;
        let values = some_expressions(self.alloc(), tokens, Terminal::Of(Word::Semicolon))?;
        whole(self.alloc(), tokens, StatementKind::Echo(values))
    }

    /// Reads a block: statements in braces, one level down.
    #[tactic(auto, unfolding(crate::specs::inner::StatementRules::block))]
    fn block(&self, tokens: &mut Tokens<'_>) -> Result<Ended, Refusal>
        ensures { Reads (within spec.block self.now tokens.old) result tokens.new }
    {
        self.enter(tokens)?;
        self.braced(tokens, self.loops())
    }

    /// Reads a statement of the sort that its first token tells, which is an expression if it tells no other.
    #[tactic(auto, unfolding(crate::specs::inner::StatementRules::any_statement, crate::specs::inner::StatementRules::by_keyword))]
    fn any_statement(&self, tokens: &mut Tokens<'_>) -> Result<Ended, Refusal>
        ensures { Reads (within spec.any_statement self.now tokens.old) result tokens.new }
    {
        match tokens.peek() {
            Terminal::Of(Word::Echo) => self.echo(tokens),
            Terminal::Of(Word::OpenBrace) => self.block(tokens),
            Terminal::Of(Word::Semicolon) => empty(self.alloc(), tokens),
            Terminal::Of(Word::If) => self.if_rule(tokens),
            Terminal::Of(Word::While) => self.while_rule(tokens),
            Terminal::Of(Word::Do) => self.do_while(tokens),
            Terminal::Of(Word::For) => self.for_rule(tokens),
            Terminal::Of(Word::Foreach) => self.foreach(tokens),
            Terminal::Of(Word::Break) => self.break_rule(tokens),
            Terminal::Of(Word::Continue) => self.continue_rule(tokens),
            Terminal::Of(Word::Return) => self.return_rule(tokens),
            Terminal::Of(Word::Global) => global_rule(self.alloc(), tokens),
            Terminal::Of(Word::Unset) => self.unset(tokens),
            Terminal::Of(Word::Exit) | Terminal::Of(Word::Die) => self.exit(tokens),
            _ => self.perform(tokens),
        }
    }

    /// A statement with the line of its first token.
    #[tactic(auto, unfolding(crate::specs::inner::StatementRules::on_its_line))]
    fn on_its_line(&self, tokens: &mut Tokens<'_>) -> Result<Body, Refusal>
        ensures { Reads (spec.on_its_line (within spec.any_statement self.now) tokens.old) result tokens.new }
    {
        let line = tokens.line();
        let found = self.any_statement(tokens)?;
        Ok(stated(self.alloc(), line, found)?)
    }
}

/// A statement, where this reads one level down.
#[tactic(auto, unfolding(crate::specs::inner::StatementRules::statement))]
pub(crate) fn statement_over<R: Inside + Drop>(
    alloc: Global,
    tokens: &mut Tokens<'_>,
    level: usize,
    loops: u32,
    inner: R,
) -> Result<Body, Refusal>
    requires few { loops + level < 2 ^ 32 }
    requires ready { R.ready inner level loops }
    ensures { Reads (spec.statement limits.expression_levels level loops tokens.old) result tokens.new }
{
    Statements::new(alloc, level, loops, inner).on_its_line(tokens)
}

/// Statements up to the closing brace, outside of loops, where this reads them.
pub(crate) fn bodies_over<R: Inside + Drop>(
    alloc: Global,
    tokens: &mut Tokens<'_>,
    level: usize,
    inner: R,
) -> Result<Items<Statement>, Refusal>
    requires some { 0 < level }
    requires few { level < 2 ^ 32 }
    requires ready { R.ready inner level 0 }
    ensures { Reads (spec.bodies (limited.body level 0) tokens.old) result tokens.new }
{
    Statements::new(alloc, level, 0, inner).bodies(tokens, 0)
}

/// A statement with so many levels of bodies left, in so many loops.
pub(crate) fn statement(
    alloc: Global,
    tokens: &mut Tokens<'_>,
    level: usize,
    loops: u32,
) -> Result<Body, Refusal>
    requires few { loops + level < 2 ^ 32 }
    ensures { Reads (spec.statement limits.expression_levels level loops tokens.old) result tokens.new }
{
    statement_over(
        alloc,
        tokens,
        level,
        loops,
        Called {
            function: statement,
        },
    )
}
