//! Parts of a program that may come to a deep call, and the names of the functions that may.

ghost use Rattle.std.specs.Prelude.{◌≡◌, ℕ, List, IfOk};
ghost use Rattle.dp_analysis.specs.Depth as depth;
ghost use Rattle.dp_analysis.specs.Quiet.{most_calls};
ghost use Rattle.dp_analysis.specs.Still.{is_named};

use crate::loud::loud_names;
use crate::names::DeepNames;
use crate::quiet::statement_is_quiet;
use crate::still::{all_still, is_still};
use dp_bytes::Memory;
use dp_tree::{Bundle, Expression, Statement};
use std::alloc::Global;

impl<'p> DeepNames<'p> {
    /// The names of the functions that include a file or may come to more than 8 calls, each within the one before,
    /// their own among them: those that are loud where no line is watched.
    pub fn of(alloc: Global, bundle: &'p Bundle) -> Result<DeepNames<'p>, Memory>
        ensures { IfOk result (λ deep. (name : List ℕ)
            → is_named deep name ≡ depth.may_nest most_calls bundle.now name) }
    {
        loud_names(alloc, &[], bundle)
    }
}

/// Whether an expression may come to a deep call.
pub fn is_deep<'p>(deep: &DeepNames<'p>, e: &'p Expression) -> bool
    ensures { result ≡ depth.is_deep (is_named deep.now) e.now }
{
    !is_still(Some(deep), e)
}

/// Whether one of some expressions may.
#[tactic(auto, using(crate::proofs::TreeStill::some_deep))]
pub fn any_deep<'p>(deep: &DeepNames<'p>, all: &'p [Expression]) -> bool
    ensures { result ≡ depth.any_deep (is_named deep.now) all.now }
{
    !all_still(Some(deep), all)
}

/// Whether a statement may.
pub fn statement_is_deep<'p>(deep: &DeepNames<'p>, statement: &'p Statement) -> bool
    ensures { result ≡ depth.statement_is_deep (is_named deep.now) statement.now }
{
    !statement_is_quiet(&[], Some(deep), statement)
}
