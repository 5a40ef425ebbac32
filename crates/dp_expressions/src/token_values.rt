//! What a token is worth to a rule of expressions, by its sort, and such tokens read.

ghost use Rattle.std.specs.Prelude.{◌≡◌, is_some};
ghost use Rattle.dp_expressions.specs.Grammar as grammar;
ghost use Rattle.dp_expressions.specs.inner.Readers as spec;
ghost use Rattle.dp_token_rules.specs.inner.Input as input;
ghost use Rattle.dp_token_rules.specs.inner.Input.{Reads};

use crate::operand::Assignment;
use crate::rank::Rank;
use dp_token_rules::{Refusal, Terminal, Tokens, Word};
use dp_tree::{BinaryOp, Expression, Inclusion, Operator, UnaryOp};

/// The operator that stands before its operand.
pub(crate) fn prefix_in(terminal: Terminal) -> Option<UnaryOp>
    ensures { result ≡ grammar.prefix_in terminal }
{
    match terminal {
        Terminal::Of(Word::Bang) => Some(UnaryOp::Not),
        Terminal::Of(Word::Minus) => Some(UnaryOp::Minus),
        Terminal::Of(Word::Plus) => Some(UnaryOp::Plus),
        _ => None,
    }
}

/// The operator that steps a place by one.
pub(crate) fn step_in(terminal: Terminal) -> Option<UnaryOp>
    ensures { result ≡ grammar.step_in terminal }
{
    match terminal {
        Terminal::Of(Word::Increment) => Some(UnaryOp::Increment),
        Terminal::Of(Word::Decrement) => Some(UnaryOp::Decrement),
        _ => None,
    }
}

/// How a file is included.
pub(crate) fn inclusion_in(terminal: Terminal) -> Option<Inclusion>
    ensures { result ≡ grammar.inclusion_in terminal }
{
    match terminal {
        Terminal::Of(Word::Include) => Some(Inclusion::Include),
        Terminal::Of(Word::Require) => Some(Inclusion::Require),
        _ => None,
    }
}

/// How an assignment makes its value.
pub(crate) fn assignment_in(terminal: Terminal) -> Option<Assignment>
    ensures { result ≡ grammar.assignment_in terminal }
{
    match terminal {
        Terminal::Of(Word::Assign) => Some(Assignment::Plain),
        Terminal::Of(Word::AddAssign) => Some(Assignment::Compound(BinaryOp::Add)),
        Terminal::Of(Word::SubtractAssign) => Some(Assignment::Compound(BinaryOp::Sub)),
        Terminal::Of(Word::MultiplyAssign) => Some(Assignment::Compound(BinaryOp::Mul)),
        Terminal::Of(Word::ConcatAssign) => Some(Assignment::Compound(BinaryOp::Concat)),
        Terminal::Of(Word::RemainderAssign) => Some(Assignment::Compound(BinaryOp::Rem)),
        Terminal::Of(Word::CoalesceAssign) => Some(Assignment::Coalesce),
        _ => None,
    }
}

/// The constant that a keyword names.
pub(crate) fn constant_in(terminal: Terminal) -> Option<Expression>
    ensures { result ≡ grammar.constant_in terminal }
{
    match terminal {
        Terminal::Of(Word::Null) => Some(Expression::Null),
        Terminal::Of(Word::True) => Some(Expression::Bool(true)),
        Terminal::Of(Word::False) => Some(Expression::Bool(false)),
        _ => None,
    }
}

/// Whether a keyword names a constant.
pub(crate) fn names_constant(terminal: Terminal) -> bool
    ensures { result ≡ is_some (grammar.constant_in terminal) }
{
    matches!(
        terminal,
        Terminal::Of(Word::Null) | Terminal::Of(Word::True) | Terminal::Of(Word::False)
    )
}

/// The operator of this rank.
pub(crate) fn operator_in(rank: Rank, terminal: Terminal) -> Option<Operator>
    ensures { result ≡ grammar.operator_in rank terminal }
{
    match (rank, terminal) {
        (Rank::Or, Terminal::Of(Word::EitherOf)) => Some(Operator::Or),
        (Rank::And, Terminal::Of(Word::BothOf)) => Some(Operator::And),
        (Rank::Equality, Terminal::Of(Word::Equal)) => Some(Operator::Of(BinaryOp::Equal)),
        (Rank::Equality, Terminal::Of(Word::NotEqual)) => Some(Operator::Of(BinaryOp::NotEqual)),
        (Rank::Equality, Terminal::Of(Word::Identical)) => Some(Operator::Of(BinaryOp::Identical)),
        (Rank::Equality, Terminal::Of(Word::NotIdentical)) => Some(Operator::Of(
            BinaryOp::NotIdentical,
        )),
        (Rank::Equality, Terminal::Of(Word::Spaceship)) => Some(Operator::Of(BinaryOp::Spaceship)),
        (Rank::Comparison, Terminal::Of(Word::Less)) => Some(Operator::Of(BinaryOp::Less)),
        (Rank::Comparison, Terminal::Of(Word::LessOrEqual)) => Some(Operator::Of(
            BinaryOp::LessEqual,
        )),
        (Rank::Comparison, Terminal::Of(Word::Greater)) => Some(Operator::Of(BinaryOp::Greater)),
        (Rank::Comparison, Terminal::Of(Word::GreaterOrEqual)) => Some(Operator::Of(
            BinaryOp::GreaterEqual,
        )),
        (Rank::Concatenation, Terminal::Of(Word::Dot)) => Some(Operator::Of(BinaryOp::Concat)),
        (Rank::Sum, Terminal::Of(Word::Plus)) => Some(Operator::Of(BinaryOp::Add)),
        (Rank::Sum, Terminal::Of(Word::Minus)) => Some(Operator::Of(BinaryOp::Sub)),
        (Rank::Product, Terminal::Of(Word::Star)) => Some(Operator::Of(BinaryOp::Mul)),
        (Rank::Product, Terminal::Of(Word::Percent)) => Some(Operator::Of(BinaryOp::Rem)),
        _ => None,
    }
}

/// Whether at most one operator of this rank joins operands.
pub(crate) fn is_single(rank: Rank) -> bool
    ensures { result ≡ grammar.is_single rank }
{
    matches!(rank, Rank::Equality | Rank::Comparison)
}

/// Whether an expression may begin with this.
pub(crate) fn begins_expression(terminal: Terminal) -> bool
    ensures { result ≡ spec.begins_expression terminal }
{
    matches!(
        terminal,
        Terminal::Variable
            | Terminal::Name
            | Terminal::Number
            | Terminal::Text
            | Terminal::Of(Word::Null)
            | Terminal::Of(Word::True)
            | Terminal::Of(Word::False)
            | Terminal::Of(Word::Array)
            | Terminal::Of(Word::Isset)
            | Terminal::Of(Word::Include)
            | Terminal::Of(Word::Require)
            | Terminal::Of(Word::OpenParenthesis)
            | Terminal::Of(Word::OpenBracket)
            | Terminal::Of(Word::Bang)
            | Terminal::Of(Word::Minus)
            | Terminal::Of(Word::Plus)
            | Terminal::Of(Word::Increment)
            | Terminal::Of(Word::Decrement)
    )
}

/// An operator that stands before its operand.
#[tactic(auto, using(dp_token_rules::proofs::TakenTokens::sort_taken))]
pub(crate) fn prefix(tokens: &mut Tokens<'_>) -> Result<UnaryOp, Refusal>
    ensures { Reads (input.sort grammar.prefix_in tokens.old) result tokens.new }
{
    let found = prefix_in(tokens.peek());
    tokens.take(found)
}

/// An operator that steps a place by one.
#[tactic(auto, using(dp_token_rules::proofs::TakenTokens::sort_taken))]
pub(crate) fn step(tokens: &mut Tokens<'_>) -> Result<UnaryOp, Refusal>
    ensures { Reads (input.sort grammar.step_in tokens.old) result tokens.new }
{
    let found = step_in(tokens.peek());
    tokens.take(found)
}

/// The word that includes a file.
#[tactic(auto, using(dp_token_rules::proofs::TakenTokens::sort_taken))]
pub(crate) fn inclusion(tokens: &mut Tokens<'_>) -> Result<Inclusion, Refusal>
    ensures { Reads (input.sort grammar.inclusion_in tokens.old) result tokens.new }
{
    let found = inclusion_in(tokens.peek());
    tokens.take(found)
}

/// An operator that assigns.
#[tactic(auto, using(dp_token_rules::proofs::TakenTokens::sort_taken))]
pub(crate) fn assignment(tokens: &mut Tokens<'_>) -> Result<Assignment, Refusal>
    ensures { Reads (input.sort grammar.assignment_in tokens.old) result tokens.new }
{
    let found = assignment_in(tokens.peek());
    tokens.take(found)
}

/// A keyword that names a constant.
#[tactic(auto, using(dp_token_rules::proofs::TakenTokens::sort_taken))]
pub(crate) fn constant(tokens: &mut Tokens<'_>) -> Result<Expression, Refusal>
    ensures { Reads (input.sort grammar.constant_in tokens.old) result tokens.new }
{
    let found = constant_in(tokens.peek());
    tokens.take(found)
}

/// An operator of this rank.
#[tactic(auto, using(dp_token_rules::proofs::TakenTokens::sort_taken))]
pub(crate) fn operator(tokens: &mut Tokens<'_>, rank: Rank) -> Result<Operator, Refusal>
    ensures { Reads (input.sort (grammar.operator_in rank) tokens.old) result tokens.new }
{
    let found = operator_in(rank, tokens.peek());
    tokens.take(found)
}
