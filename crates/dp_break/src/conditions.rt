//! The expressions of breakpoints.

ghost use Rattle.std.specs.Prelude.{◌≡◌, false, true, Some, IfOk, IfErr, OnOk};
ghost use Rattle.dp_break.specs.Conditions as spec;
ghost use Rattle.dp_break.specs.Conditions.{has_no_tree};
ghost use Rattle.dp_break.specs.Hits.{is_true_in};
ghost use Rattle.dp_break.specs.inner.Causes.{IsNoTree, error_of, pure_or_refused};
ghost use Rattle.dp_tree.specs.Purity.{is_pure};

use crate::errors::BreakError;
use dp_bytes::{Bytes, Memory};
use dp_meaning::value_in;
use dp_packet::ErrorCode;
use dp_parse::{ParseError, parse_expression};
use dp_state::State;
use dp_tree::{Bundle, Expression, is_pure};
use dp_value::truthy;
use std::alloc::Global;

/// The most bytes that an expression may have.
const EXPRESSION_LIMIT: usize = 4096;

/// Why there is no tree: 207, or out of memory.
fn no_expression(why: ParseError) -> BreakError
    ensures { result ≡ error_of why }
{
    match why {
        ParseError::Memory => BreakError::Memory,
        _ => BreakError::Code(ErrorCode::InvalidExpression),
    }
}

/// The tree, or 207 where it may change something.
fn pure_only(e: Expression) -> Result<Expression, BreakError>
    ensures { result ≡ pure_or_refused e }
{
    if is_pure(&e) {
        Ok(e)
    } else {
        Err(BreakError::Code(ErrorCode::InvalidExpression))
    }
}

/// The tree of an expression, or 207 where the text is too long, is none, or may change something.
fn condition_of(alloc: Global, text: &Bytes) -> Result<Expression, BreakError>
    ensures found { IfOk result (λ e. spec.condition_of text.now ≡ Some e) }
    ensures refused { IfErr result (IsNoTree (Some text.now)) }
{
    if text.len() > EXPRESSION_LIMIT {
        return Err(BreakError::Code(ErrorCode::InvalidExpression));
    }
    match parse_expression(alloc, text.as_slice()) {
        Ok(e) => pure_only(e),
        Err(why) => Err(no_expression(why)),
    }
}

/// The tree of the expression, if one is given, or 207.
pub(crate) fn tree_of(
    alloc: Global,
    expression: &Option<Bytes>,
) -> Result<Option<Expression>, BreakError>
    ensures found { IfOk result (λ tree. tree ≡ spec.tree_of expression.now) }
    ensures formed { OnOk result (has_no_tree expression.now ≡ false) }
    ensures refused { IfErr result (IsNoTree expression.now) }
{
    match expression {
        Some(text) => match condition_of(alloc, text) {
            Ok(e) => Ok(Some(e)),
            Err(why) => Err(why),
        },
        None => Ok(None),
    }
}

/// Whether an expression is true in a state. One that is fatal is not.
pub(crate) fn is_true(
    alloc: Global,
    bundle: &Bundle,
    state: &State,
    e: &Expression,
) -> Result<bool, Memory>
    requires { is_pure e.now ≡ true }
    ensures { IfOk result (λ truth. truth ≡ is_true_in bundle.now e.now state.now) }
{
    match value_in(alloc, state, bundle, e)? {
        Some(found) => Ok(truthy(&found)),
        None => Ok(false),
    }
}
