//! Trees of their parts.

ghost use Rattle.std.specs.Prelude.{◌≡◌, IfOk};
ghost use Rattle.dp_expressions.specs.Grammar as grammar;
ghost use Rattle.dp_expressions.specs.inner.Readers as spec;

use crate::operand::{Assignment, Operand};
use dp_bytes::{Bytes, Items, Memory};
use dp_tree::{Boxed, Expression, Inclusion, Link, Place, UnaryOp};
use std::alloc::Global;

/// A place of its parts.
pub(crate) fn named(alloc: Global, name: &[u8], indices: Items<Expression>) -> Result<Place, Memory>
    ensures { IfOk result (λ p. p ≡ grammar.place name.now indices) }
{
    let name = Bytes::from_slice(alloc, name)?;
    Ok(Place { name, indices })
}

/// An operand under indices, if there are any.
pub(crate) fn indexed(
    alloc: Global,
    base: Expression,
    indices: Items<Expression>,
) -> Result<Expression, Memory>
    ensures { IfOk result (λ e. e ≡ grammar.indexed base indices) }
{
    if indices.is_empty() {
        Ok(base)
    } else {
        Ok(Expression::Index(Boxed::new(alloc, base)?, indices))
    }
}

/// The value of a place.
pub(crate) fn value_of(alloc: Global, place: Place) -> Result<Expression, Memory>
    ensures { IfOk result (λ e. e ≡ grammar.value_of place) }
{
    indexed(alloc, Expression::Variable(place.name), place.indices)
}

/// An operand as an expression.
pub(crate) fn tree_of(alloc: Global, operand: Operand) -> Result<Expression, Memory>
    ensures { IfOk result (λ e. e ≡ spec.tree_of operand) }
{
    match operand {
        Operand::Place(place) | Operand::Push(place) => value_of(alloc, place),
        Operand::Other(tree) => Ok(tree),
    }
}

/// Operands of one rank, joined if there are any operators.
pub(crate) fn chained(
    alloc: Global,
    first: Expression,
    links: Items<Link>,
) -> Result<Expression, Memory>
    ensures { IfOk result (λ e. e ≡ grammar.chained first links) }
{
    if links.is_empty() {
        Ok(first)
    } else {
        Ok(Expression::Chain(Boxed::new(alloc, first)?, links))
    }
}

/// The tree of a unary operator and its operand.
pub(crate) fn unary(alloc: Global, by: UnaryOp, of: Expression) -> Result<Expression, Memory>
    ensures { IfOk result (λ e. e ≡ Expression.Unary by of) }
{
    Ok(Expression::Unary(by, Boxed::new(alloc, of)?))
}

/// The tree of an `include` or a `require` of what an expression names.
pub(crate) fn included(alloc: Global, how: Inclusion, of: Expression) -> Result<Expression, Memory>
    ensures { IfOk result (λ e. e ≡ Expression.Include how of) }
{
    Ok(Expression::Include(how, Boxed::new(alloc, of)?))
}

/// The tree of an assignment to a place with `[]` behind it.
pub(crate) fn pushed(alloc: Global, to: Place, from: Expression) -> Result<Expression, Memory>
    ensures { IfOk result (λ e. e ≡ Expression.Push to from) }
{
    Ok(Expression::Push(to, Boxed::new(alloc, from)?))
}

/// An assignment.
pub(crate) fn assigned(
    alloc: Global,
    to: Place,
    how: Assignment,
    from: Expression,
) -> Result<Expression, Memory>
    ensures { IfOk result (λ e. e ≡ grammar.assigned to how from) }
{
    let from = Boxed::new(alloc, from)?;
    Ok(match how {
        Assignment::Plain => Expression::Assign(to, from),
        Assignment::Compound(by) => Expression::Compound(by, to, from),
        Assignment::Coalesce => Expression::CoalesceAssign(to, from),
    })
}
