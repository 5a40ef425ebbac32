//! Operands.

ghost use Rattle.std.specs.Prelude.{◌<◌};
ghost use Rattle.dp_token_rules.specs.inner.Input.{Reads};
ghost use Rattle.dp_expressions.specs.inner.Readers as spec;
ghost use Rattle.dp_expressions.specs.inner.Readers.{within};

use crate::grammar::Grammar;
use crate::inside::Inside;
use crate::kept::both;
use crate::nodes::{indexed, tree_of, unary};
use crate::operand::{Operand, Part};
use crate::pieces::{Below, Entry, PlaceBelow};
use crate::token_values::{constant, names_constant, prefix, prefix_in, step, step_in};
use dp_bytes::Bytes;
use dp_token_rules::{Refusal, Terminal, Tokens, Word, any_items, some_items};
use dp_tree::{Expression, Item, Order, Place};
use std::alloc::Global;

impl<R: Inside> Grammar<R> {
    /// An expression in parentheses.
    #[tactic(auto, unfolding(crate::specs::inner::Readers::group))]
    fn group(&self, tokens: &mut Tokens<'_>) -> Result<Expression, Refusal>
        ensures { Reads (within spec.group self.now tokens.old) result tokens.new }
    {
        self.enter(tokens)?;
        tokens.mark(Terminal::Of(Word::OpenParenthesis))?;
        let within = self.inner(tokens, Part::Whole)?;
        let (within, _) = both(within, tokens.mark(Terminal::Of(Word::CloseParenthesis)))?;
        Ok(within)
    }

    /// The item of an array literal that begins with this: its key where `=>` comes next, else its value.
    #[tactic(auto, unfolding(crate::specs::inner::Readers::item_rest))]
    fn item_rest(&self, tokens: &mut Tokens<'_>, first: Expression) -> Result<Item, Refusal>
        requires { 0 < self.now }
        ensures { Reads (within spec.item_rest self.now first tokens.old) result tokens.new }
    {
        if !tokens.sees(Terminal::Of(Word::Arrow)) {
            return Ok(Item {
                key: None,
                value: first,
            });
        }
        let (first, _) = both(first, tokens.mark(Terminal::Of(Word::Arrow)))?;
        let (first, value) = both(first, self.inner(tokens, Part::Whole))?;
        Ok(Item {
            key: Some(first),
            value,
        })
    }

    /// An item of an array literal.
    #[tactic(auto, unfolding(crate::specs::inner::Readers::item_rule))]
    pub(crate) fn item_rule(&self, tokens: &mut Tokens<'_>) -> Result<Item, Refusal>
        requires { 0 < self.now }
        ensures { Reads (within spec.item_rule self.now tokens.old) result tokens.new }
    {
        let first = self.inner(tokens, Part::Whole)?;
        self.item_rest(tokens, first)
    }

    /// Reads an array literal in brackets.
    #[tactic(auto, unfolding(crate::specs::inner::Readers::literal))]
    fn literal(&self, tokens: &mut Tokens<'_>) -> Result<Expression, Refusal>
        ensures { Reads (within spec.literal self.now tokens.old) result tokens.new }
    {
        self.enter(tokens)?;
        tokens.mark(Terminal::Of(Word::OpenBracket))?;
        let entry = Entry { grammar: self };
        let items = any_items(
            self.alloc(),
            tokens,
            Terminal::Of(Word::CloseBracket),
            &entry,
        )?;
        Ok(Expression::Array(items))
    }

    /// Reads an array literal in the form of a call of `array`.
    #[tactic(auto, unfolding(crate::specs::inner::Readers::array_call))]
    fn array_call(&self, tokens: &mut Tokens<'_>) -> Result<Expression, Refusal>
        ensures { Reads (within spec.array_call self.now tokens.old) result tokens.new }
    {
        self.enter(tokens)?;
        tokens.mark(Terminal::Of(Word::Array))?;
        tokens.mark(Terminal::Of(Word::OpenParenthesis))?;
        let entry = Entry { grammar: self };
        let items = any_items(
            self.alloc(),
            tokens,
            Terminal::Of(Word::CloseParenthesis),
            &entry,
        )?;
        Ok(Expression::Array(items))
    }

    /// Reads the arguments of a call in their parentheses, behind its name.
    #[tactic(auto, unfolding(crate::specs::inner::Readers::call))]
    fn call(&self, tokens: &mut Tokens<'_>, name: Bytes) -> Result<Expression, Refusal>
        ensures { Reads (within spec.call self.now name tokens.old) result tokens.new }
    {
        self.enter(tokens)?;
        tokens.mark(Terminal::Of(Word::OpenParenthesis))?;
        let argument = Below {
            grammar: self,
            part: Part::Whole,
        };
        let arguments = any_items(
            self.alloc(),
            tokens,
            Terminal::Of(Word::CloseParenthesis),
            &argument,
        )?;
        Ok(Expression::Call(name, arguments))
    }

    /// The call of this name where a parenthesis comes next, else the constant.
    #[tactic(auto, unfolding(crate::specs::inner::Readers::behind_name))]
    fn behind_name(&self, tokens: &mut Tokens<'_>, name: Bytes) -> Result<Expression, Refusal>
        ensures { Reads (within spec.behind_name self.now name tokens.old) result tokens.new }
    {
        if tokens.sees(Terminal::Of(Word::OpenParenthesis)) {
            self.call(tokens, name)
        } else {
            Ok(Expression::Constant(name))
        }
    }

    /// Reads a name, and the arguments behind it if it is that of a call.
    #[tactic(auto, unfolding(crate::specs::inner::Readers::named))]
    fn named(&self, tokens: &mut Tokens<'_>) -> Result<Expression, Refusal>
        ensures { Reads (within spec.named self.now tokens.old) result tokens.new }
    {
        let name = tokens.name(self.alloc())?;
        self.behind_name(tokens, name)
    }

    /// Reads an `isset` of one place or more.
    #[tactic(auto, unfolding(crate::specs::inner::Readers::isset))]
    fn isset(&self, tokens: &mut Tokens<'_>) -> Result<Expression, Refusal>
        ensures { Reads (within spec.isset self.now tokens.old) result tokens.new }
    {
        self.enter(tokens)?;
        tokens.mark(Terminal::Of(Word::Isset))?;
        tokens.mark(Terminal::Of(Word::OpenParenthesis))?;
        let place = PlaceBelow { grammar: self };
        let places = some_items(
            self.alloc(),
            tokens,
            Terminal::Of(Word::CloseParenthesis),
            &place,
        )?;
        Ok(Expression::Isset(places))
    }

    /// Reads a text, a constant, an expression in parentheses, an array literal or a call; else refuses.
    #[tactic(auto, unfolding(crate::specs::inner::Readers::primary, dp_token_rules::specs::inner::Input::refuse))]
    fn primary(&self, tokens: &mut Tokens<'_>) -> Result<Expression, Refusal>
        ensures { Reads (within spec.primary self.now tokens.old) result tokens.new }
    {
        if tokens.sees(Terminal::Text) {
            return Ok(Expression::Text(tokens.text(self.alloc())?));
        }
        if names_constant(tokens.peek()) {
            return constant(tokens);
        }
        if tokens.sees(Terminal::Of(Word::OpenParenthesis)) {
            return self.group(tokens);
        }
        if tokens.sees(Terminal::Of(Word::OpenBracket)) {
            return self.literal(tokens);
        }
        if tokens.sees(Terminal::Of(Word::Array)) {
            return self.array_call(tokens);
        }
        if tokens.sees(Terminal::Name) {
            return self.named(tokens);
        }
        Err(tokens.refuse())
    }

    /// Reads an operator that stands before its operand, and the operand one level down.
    #[tactic(auto, unfolding(crate::specs::inner::Readers::prefixed))]
    fn prefixed(&self, tokens: &mut Tokens<'_>) -> Result<Expression, Refusal>
        ensures { Reads (within spec.prefixed self.now tokens.old) result tokens.new }
    {
        self.enter(tokens)?;
        let by = prefix(tokens)?;
        let of = self.inner(tokens, Part::Alone)?;
        Ok(unary(self.alloc(), by, of)?)
    }

    /// Reads a `++` or a `--` that stands before its place, and the place.
    #[tactic(auto, unfolding(crate::specs::inner::Readers::stepped_first))]
    fn stepped_first(&self, tokens: &mut Tokens<'_>) -> Result<Expression, Refusal>
        ensures { Reads (within spec.stepped_first self.now tokens.old) result tokens.new }
    {
        self.enter(tokens)?;
        let by = step(tokens)?;
        let of = self.place_below(tokens)?;
        Ok(Expression::Step(by, Order::StepFirst, of))
    }

    /// An operand that begins with no variable.
    #[tactic(auto, unfolding(crate::specs::inner::Readers::other))]
    pub(crate) fn other(&self, tokens: &mut Tokens<'_>) -> Result<Expression, Refusal>
        ensures { Reads (within spec.other self.now tokens.old) result tokens.new }
    {
        if prefix_in(tokens.peek()).is_some() {
            return self.prefixed(tokens);
        }
        if step_in(tokens.peek()).is_some() {
            return self.stepped_first(tokens);
        }
        if tokens.sees(Terminal::Number) {
            return Ok(Expression::Number(tokens.number()?));
        }
        if tokens.sees(Terminal::Of(Word::Isset)) {
            return self.isset(tokens);
        }
        let base = self.primary(tokens)?;
        let (base, indices) = both(base, self.indices(tokens))?;
        Ok(indexed(self.alloc(), base, indices)?)
    }

    /// What may stand behind a place.
    #[tactic(auto, unfolding(crate::specs::inner::Readers::step_last))]
    pub(crate) fn step_last(
        &self,
        tokens: &mut Tokens<'_>,
        place: Place,
    ) -> Result<Operand, Refusal>
        ensures { Reads (within spec.step_last self.now place tokens.old) result tokens.new }
    {
        if step_in(tokens.peek()).is_none() {
            return Ok(Operand::Place(place));
        }
        let by = step(tokens)?;
        Ok(Operand::Other(Expression::Step(by, Order::ValueFirst, place)))
    }

    /// One operand, with what stands before it.
    #[tactic(auto, unfolding(crate::specs::inner::Readers::alone))]
    pub(crate) fn alone(&self, tokens: &mut Tokens<'_>) -> Result<Expression, Refusal>
        ensures { Reads (within spec.alone self.now tokens.old) result tokens.new }
    {
        if !tokens.sees(Terminal::Variable) {
            return self.other(tokens);
        }
        let place = self.place_rule(tokens)?;
        let operand = self.step_last(tokens, place)?;
        Ok(tree_of(self.alloc(), operand)?)
    }
}
