//! Heads in which the value of one attribute is sought: of each other attribute only its name is
//! kept, and no value.

ghost use Rattle.std.specs.Prelude.{◌≡◌};
ghost use Rattle.dp_markup.specs.inner.Input.{Reads, closed};
ghost use Rattle.dp_markup.specs.inner.Search as spec;

use crate::attributes::{same_text, sees_end, spaced_mark, spaced_value};
use crate::documents::prolog;
use crate::input::Input;
use crate::kept_names::{Name, Names};
use dp_bytes::Bytes;
use dp_grammar::Refusal;
use std::alloc::Global;
use std::ops::ControlFlow;

/// How far a start tag has been read: the names of its attributes so far, the value that is sought
/// where it was among them, and whether white space came last.
#[derive(Debug, Drop)]
pub(crate) struct Sought<'a> {
    pub(crate) names: Names<'a>,
    pub(crate) value: Option<Bytes>,
    pub(crate) apart: bool,
}

/// Passes the quote that ends a value, or one more byte of it; refuses anything else.
#[tactic(auto, unfolding(crate::specs::inner::Search::pass_step))]
fn pass_step(input: &mut Input<'_>, quote: u8) -> Result<ControlFlow<(), ()>, Refusal>
    ensures { Reads (spec.pass_step quote tt input.old) result input.new }
{
    if input.sees(quote) {
        input.mark(quote)?;
        Ok(ControlFlow::Break(()))
    } else {
        input.value_byte(quote)?;
        Ok(ControlFlow::Continue(()))
    }
}

/// Passes what is between quotes, behind the first.
#[tactic(auto, using(dp_grammar::proofs::Turns::turns), unfolding(crate::specs::inner::Search::pass_quoted))]
fn pass_quoted(input: &mut Input<'_>, quote: u8) -> Result<(), Refusal>
    ensures { Reads (spec.pass_quoted quote input.old) result input.new }
{
    for _turn in 0..input.left() + 1 {
        match pass_step(input, quote)? {
            ControlFlow::Continue(()) => {}
            ControlFlow::Break(()) => return Ok(()),
        }
    }
    Err(input.refuse())
}

/// Passes a value between quotes of either kind; refuses where no quote comes next.
#[tactic(auto, unfolding(crate::specs::inner::Search::pass_value))]
fn pass_value(input: &mut Input<'_>) -> Result<(), Refusal>
    ensures { Reads (spec.pass_value input.old) result input.new }
{
    let quote = input.quote()?;
    pass_quoted(input, quote)
}

/// Passes a value, or one byte of white space before it; refuses anything else.
#[tactic(auto, unfolding(crate::specs::inner::Search::spaced_pass_step))]
fn spaced_pass_step(input: &mut Input<'_>) -> Result<ControlFlow<(), ()>, Refusal>
    ensures { Reads (spec.spaced_pass_step tt input.old) result input.new }
{
    if input.sees_quote() {
        pass_value(input)?;
        Ok(ControlFlow::Break(()))
    } else {
        input.white()?;
        Ok(ControlFlow::Continue(()))
    }
}

/// Passes white space, and then a value.
#[tactic(auto, using(dp_grammar::proofs::Turns::turns), unfolding(crate::specs::inner::Search::spaced_pass))]
fn spaced_pass(input: &mut Input<'_>) -> Result<(), Refusal>
    ensures { Reads (spec.spaced_pass input.old) result input.new }
{
    for _turn in 0..input.left() + 1 {
        match spaced_pass_step(input)? {
            ControlFlow::Continue(()) => {}
            ControlFlow::Break(()) => return Ok(()),
        }
    }
    Err(input.refuse())
}

/// White space and a value, which is kept where it is the one that is sought.
#[tactic(auto, unfolding(crate::specs::inner::Search::sought_value))]
fn sought_value(
    alloc: Global,
    input: &mut Input<'_>,
    is_sought: bool,
) -> Result<Option<Bytes>, Refusal>
    ensures { Reads (spec.sought_value is_sought input.old) result input.new }
{
    if is_sought {
        Ok(Some(spaced_value(alloc, input)?.into_bytes()))
    } else {
        spaced_pass(input)?;
        Ok(None)
    }
}

/// The new value where there is one, and else the old.
fn kept(old: Option<Bytes>, new: Option<Bytes>) -> Option<Bytes>
    ensures { result ≡ spec.kept old new }
{
    match new {
        Some(value) => Some(value),
        None => old,
    }
}

/// An attribute, behind those that were found.
#[tactic(auto, unfolding(crate::specs::inner::Search::sought_attribute))]
fn sought_attribute<'a>(
    alloc: Global,
    input: &mut Input<'a>,
    wanted: &[u8],
    sought: Sought<'a>,
) -> Result<Sought<'a>, Refusal>
    ensures { Reads (spec.sought_attribute wanted.now sought.entry input.old) result input.new }
{
    let Sought {
        mut names,
        value: old,
        apart: _,
    } = sought;
    let bytes = input.name()?;
    let name = Name::of(bytes);
    if !names.lacks(&name) {
        return Err(input.refuse());
    }
    spaced_mark(input, b'=')?;
    let new = sought_value(alloc, input, same_text(bytes, wanted))?;
    names.add(name)?;
    Ok(Sought {
        names,
        value: kept(old, new),
        apart: false,
    })
}

/// Reads one byte of white space or an attribute in a start tag; refuses an attribute without white space before it.
#[tactic(auto, unfolding(crate::specs::inner::Search::sought_piece, crate::specs::inner::Input::refuse))]
fn sought_piece<'a>(
    alloc: Global,
    input: &mut Input<'a>,
    wanted: &[u8],
    sought: Sought<'a>,
) -> Result<Sought<'a>, Refusal>
    ensures { Reads (spec.sought_piece wanted.now sought.entry input.old) result input.new }
{
    if input.sees_white() {
        input.white()?;
        let Sought {
            names,
            value,
            apart: _,
        } = sought;
        return Ok(Sought {
            names,
            value,
            apart: true,
        });
    }
    if !sought.apart {
        return Err(input.refuse());
    }
    sought_attribute(alloc, input, wanted, sought)
}

/// The value that was sought, where the start tag that ends here is the one that was asked for.
#[tactic(auto, unfolding(crate::specs::inner::Search::sought_end))]
fn sought_end(
    input: &mut Input<'_>,
    is_root: bool,
    sought: Sought<'_>,
) -> Result<Option<Bytes>, Refusal>
    ensures { Reads (spec.sought_end is_root sought.entry input.old) result input.new }
{
    if input.sees(b'>') {
        input.mark(b'>')?;
    } else {
        input.word(b"/>")?;
    }
    let Sought {
        names: _,
        value,
        apart: _,
    } = sought;
    Ok(if is_root { value } else { None })
}

/// Reads the rest of a start tag to its end, for the value that is sought, where the tag is the one asked for.
#[tactic(auto, using(dp_grammar::proofs::Turns::turns))]
fn sought_from<'a>(
    alloc: Global,
    input: &mut Input<'a>,
    is_root: bool,
    wanted: &[u8],
    first: Sought<'a>,
) -> Result<Option<Bytes>, Refusal>
    ensures { Reads (closed (spec.sought_step is_root wanted.now) first.entry input.old) result input.new }
{
    let mut state = first;
    for _turn in 0..input.left() + 1 {
        if sees_end(input) {
            return sought_end(input, is_root, state);
        }
        state = sought_piece(alloc, input, wanted, state)?;
    }
    Err(input.refuse())
}

/// A text as far as the end of the root's start tag: the value of an attribute of the root.
#[tactic(auto, unfolding(crate::specs::inner::Search::sought_head))]
pub(crate) fn sought_head<'a>(
    alloc: Global,
    input: &mut Input<'a>,
    root: &[u8],
    wanted: &[u8],
) -> Result<Option<Bytes>, Refusal>
    ensures { Reads (spec.sought_head root.now wanted.now input.old) result input.new }
{
    prolog(input)?;
    let is_root = same_text(input.name()?, root);
    let first = Sought {
        names: Names::new(alloc),
        value: None,
        apart: false,
    };
    sought_from(alloc, input, is_root, wanted, first)
}
