//! Expressions with no moment that is watched: found by a walk that ends at the first loud call or include.

ghost use Rattle.std.specs.Prelude.{◌≡◌, true};
ghost use Rattle.std.specs.Option.{option_copied, option_map_or};
ghost use Rattle.std.specs.List.{list_all};
ghost use Rattle.dp_analysis.specs.Still as still;
ghost use Rattle.dp_analysis.specs.Still.{calls_of, is_momentless as has_no_moment};
ghost use Rattle.dp_analysis.specs.inner.Parts as parts;

use crate::names::{DeepNames, is_loud_call};
use dp_tree::{Boxed, Expression, Item, Link, Place};

/// Whether an expression has no call of a program's function and no include anywhere inside, so that no moment can come
/// in it. Takes no memory.
pub fn is_momentless(e: &Expression) -> bool
    ensures { result ≡ has_no_moment e.now }
{
    is_still(None, e)
}

/// Whether each of some expressions has none.
pub fn all_momentless(all: &[Expression]) -> bool
    ensures { result ≡ list_all has_no_moment all.now }
{
    all_still(None, all)
}

/// Whether an expression includes no file and calls none of these names, or where there are none, no function of the
/// program. Takes no memory.
#[cycle(still)]
pub(crate) fn is_still<'p>(loud: Option<&DeepNames<'p>>, e: &'p Expression) -> bool
    ensures { result ≡ still.is_still (calls_of (option_copied loud.entry)) e.now }
{
    match e {
        Expression::Null
        | Expression::Bool(_)
        | Expression::Number(_)
        | Expression::Text(_)
        | Expression::Variable(_)
        | Expression::Constant(_) => true,
        Expression::Array(items) => items_are_still(loud, items.as_slice()),
        Expression::Call(name, arguments) => {
            !is_loud_call(loud, name) && all_still(loud, arguments.as_slice())
        }
        Expression::Isset(places) => places_are_still(loud, places.as_slice()),
        Expression::Index(base, indices) => {
            is_still(loud, base.as_ref()) && all_still(loud, indices.as_slice())
        }
        Expression::Unary(_, of) => is_still(loud, of.as_ref()),
        Expression::Step(_, _, place) => place_is_still(loud, place),
        Expression::Chain(first, links) => {
            is_still(loud, first.as_ref()) && links_are_still(loud, links.as_slice())
        }
        Expression::Coalesce(left, right) => {
            is_still(loud, left.as_ref()) && is_still(loud, right.as_ref())
        }
        Expression::Conditional(test, middle, otherwise) => {
            is_still(loud, test.as_ref())
                && middle_is_still(loud, middle)
                && is_still(loud, otherwise.as_ref())
        }
        Expression::Include(_, _) => false,
        Expression::Assign(place, right)
        | Expression::Compound(_, place, right)
        | Expression::CoalesceAssign(place, right)
        | Expression::Push(place, right) => place_is_still(loud, place)
            && is_still(loud, right.as_ref()),
    }
}

/// Whether there is no middle of a conditional, or one that is so.
#[cycle(still)]
fn middle_is_still<'p>(loud: Option<&DeepNames<'p>>, middle: &'p Option<Boxed<Expression>>) -> bool
    ensures { result ≡ option_map_or (still.is_still (calls_of (option_copied loud.entry))) middle.now true }
{
    match middle {
        Some(e) => is_still(loud, e.as_ref()),
        None => true,
    }
}

/// Whether each of some expressions is so.
#[cycle(still)]
pub(crate) fn all_still<'p>(loud: Option<&DeepNames<'p>>, all: &'p [Expression]) -> bool
    ensures { result ≡ list_all (still.is_still (calls_of (option_copied loud.entry))) all.now }
{
    for e in all {
        if !is_still(loud, e) {
            return false;
        }
    }
    true
}

/// Whether each of some items is so.
#[cycle(still)]
fn items_are_still<'p>(loud: Option<&DeepNames<'p>>, all: &'p [Item]) -> bool
    ensures { result ≡ list_all (parts.item_is_still (calls_of (option_copied loud.entry))) all.now }
{
    for item in all {
        if !item_is_still(loud, item) {
            return false;
        }
    }
    true
}

/// Whether the key and the value of an item are so.
#[cycle(still)]
fn item_is_still<'p>(loud: Option<&DeepNames<'p>>, item: &'p Item) -> bool
    ensures { result ≡ parts.item_is_still (calls_of (option_copied loud.entry)) item.now }
{
    match &item.key {
        Some(key) => is_still(loud, key) && is_still(loud, &item.value),
        None => is_still(loud, &item.value),
    }
}

/// Whether the indices of each of some places are so.
#[cycle(still)]
pub(crate) fn places_are_still<'p>(loud: Option<&DeepNames<'p>>, all: &'p [Place]) -> bool
    ensures { result ≡ list_all (still.place_is_still (calls_of (option_copied loud.entry))) all.now }
{
    for place in all {
        if !place_is_still(loud, place) {
            return false;
        }
    }
    true
}

/// Whether each index of a place is so.
#[cycle(still)]
fn place_is_still<'p>(loud: Option<&DeepNames<'p>>, place: &'p Place) -> bool
    ensures { result ≡ still.place_is_still (calls_of (option_copied loud.entry)) place.now }
{
    all_still(loud, place.indices.as_slice())
}

/// Whether the operand of each of some links is so.
#[cycle(still)]
fn links_are_still<'p>(loud: Option<&DeepNames<'p>>, all: &'p [Link]) -> bool
    ensures { result ≡ list_all (parts.link_is_still (calls_of (option_copied loud.entry))) all.now }
{
    for link in all {
        if !is_still(loud, &link.operand) {
            return false;
        }
    }
    true
}
