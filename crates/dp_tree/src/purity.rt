//! Which expressions change nothing.

ghost use Rattle.std.specs.Prelude.{◌≡◌, true};
ghost use Rattle.std.specs.Option.{option_map_or};
ghost use Rattle.std.specs.List.{list_all};
ghost use Rattle.dp_tree.specs.Purity as purity;
ghost use Rattle.dp_tree.specs.inner.Parts as parts;

use crate::boxed::Boxed;
use crate::tree::{Expression, Item, Link, Place};

/// Whether an expression has no call, assignment, `++`, `--` or include anywhere inside. Takes no memory.
#[cycle(purity)]
#[tactic(auto, using(crate::proofs::TreePurity::array_is_pure, crate::proofs::TreePurity::isset_is_pure, crate::proofs::TreePurity::index_is_pure, crate::proofs::TreePurity::chain_is_pure))]
pub fn is_pure(e: &Expression) -> bool
    ensures { result ≡ purity.is_pure e.now }
{
    match e {
        Expression::Null
        | Expression::Bool(_)
        | Expression::Number(_)
        | Expression::Text(_)
        | Expression::Variable(_)
        | Expression::Constant(_) => true,
        Expression::Array(items) => items_are_pure(items.as_slice()),
        Expression::Isset(places) => places_are_pure(places.as_slice()),
        Expression::Index(base, indices) => is_pure(base.as_ref()) && all_pure(indices.as_slice()),
        Expression::Unary(_, of) => is_pure(of.as_ref()),
        Expression::Chain(first, links) => is_pure(first.as_ref())
            && links_are_pure(links.as_slice()),
        Expression::Coalesce(left, right) => is_pure(left.as_ref()) && is_pure(right.as_ref()),
        Expression::Conditional(test, middle, otherwise) => {
            is_pure(test.as_ref()) && is_pure_if_any(middle) && is_pure(otherwise.as_ref())
        }
        Expression::Call(_, _)
        | Expression::Step(_, _, _)
        | Expression::Include(_, _)
        | Expression::Assign(_, _)
        | Expression::Compound(_, _, _)
        | Expression::CoalesceAssign(_, _)
        | Expression::Push(_, _) => false,
    }
}

/// Whether there is no expression, or a pure one.
#[cycle(purity)]
fn is_pure_if_any(e: &Option<Boxed<Expression>>) -> bool
    ensures { result ≡ option_map_or purity.is_pure e.now true }
{
    match e {
        Some(e) => is_pure(e.as_ref()),
        None => true,
    }
}

/// Whether each of these expressions is pure.
#[cycle(purity)]
fn all_pure(all: &[Expression]) -> bool
    ensures { result ≡ list_all purity.is_pure all.now }
{
    for e in all {
        if !is_pure(e) {
            return false;
        }
    }
    true
}

/// Whether each of these items is pure.
#[cycle(purity)]
fn items_are_pure(all: &[Item]) -> bool
    ensures { result ≡ list_all parts.item_is_pure all.now }
{
    for item in all {
        if !item_is_pure(item) {
            return false;
        }
    }
    true
}

/// Whether the key and the value of an item are pure.
#[cycle(purity)]
fn item_is_pure(item: &Item) -> bool
    ensures { result ≡ parts.item_is_pure item.now }
{
    match &item.key {
        Some(key) => is_pure(key) && is_pure(&item.value),
        None => is_pure(&item.value),
    }
}

/// Whether the indices of each of these places are pure.
#[cycle(purity)]
fn places_are_pure(all: &[Place]) -> bool
    ensures { result ≡ list_all parts.place_is_pure all.now }
{
    for place in all {
        if !place_is_pure(place) {
            return false;
        }
    }
    true
}

/// Whether each index of a place is pure.
#[cycle(purity)]
#[tactic(auto, using(crate::proofs::TreePurity::place_pure))]
fn place_is_pure(place: &Place) -> bool
    ensures { result ≡ parts.place_is_pure place.now }
{
    all_pure(place.indices.as_slice())
}

/// Whether the operand of each of these links is pure.
#[cycle(purity)]
fn links_are_pure(all: &[Link]) -> bool
    ensures { result ≡ list_all parts.link_is_pure all.now }
{
    for link in all {
        if !is_pure(&link.operand) {
            return false;
        }
    }
    true
}
