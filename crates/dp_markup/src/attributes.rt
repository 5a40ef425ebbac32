//! Values, attributes and start tags.

ghost use Rattle.std.specs.Prelude.{◌≡◌, ◌==◌, ◌||◌};
ghost use Rattle.dp_markup.specs.Grammar as grammar;
ghost use Rattle.dp_markup.specs.inner.Input.{Reads, closed, head, next};
ghost use Rattle.dp_markup.specs.inner.Readers as spec;

use crate::found::Found;
use crate::input::Input;
use crate::lists::Growing;
use crate::states::{StartTag, Tag};
use dp_bytes::Bytes;
use dp_grammar::Refusal;
use std::alloc::Global;
use std::ops::ControlFlow;

/// Whether two names or texts are the same bytes.
pub fn same_text(a: &[u8], b: &[u8]) -> bool
    ensures { result ≡ grammar.same_text a.now b.now }
{
    a == b
}

/// Reads the quote that ends a value, or one more byte of it; refuses anything else.
#[tactic(auto, unfolding(crate::specs::inner::Readers::value_step))]
fn value_step(
    input: &mut Input<'_>,
    quote: u8,
    mut value: Growing<u8>,
) -> Result<ControlFlow<Growing<u8>, Growing<u8>>, Refusal>
    ensures { Reads (spec.value_step quote value input.old) result input.new }
{
    if input.sees(quote) {
        input.mark(quote)?;
        Ok(ControlFlow::Break(value))
    } else {
        let byte = input.value_byte(quote)?;
        value.push(byte)?;
        Ok(ControlFlow::Continue(value))
    }
}

/// Reads a value behind its first quote, up to the next such quote.
#[tactic(auto, unfolding(crate::specs::inner::Readers::quoted))]
fn quoted(alloc: Global, input: &mut Input<'_>, quote: u8) -> Result<Growing<u8>, Refusal>
    ensures { Reads (spec.quoted quote input.old) result input.new }
{
    quoted_from(input, quote, Growing::new(alloc))
}

/// Reads the rest of a value, behind what was read of it, up to its quote.
#[tactic(auto, using(dp_grammar::proofs::Turns::turns))]
fn quoted_from(input: &mut Input<'_>, quote: u8, first: Growing<u8>) -> Result<Growing<u8>, Refusal>
    ensures { Reads (closed (spec.value_step quote) first input.old) result input.new }
{
    let mut state = first;
    for _turn in 0..input.left() + 1 {
        match value_step(input, quote, state)? {
            ControlFlow::Continue(more) => state = more,
            ControlFlow::Break(all) => return Ok(all),
        }
    }
    Err(input.refuse())
}

/// Reads a value between quotes of either kind; refuses where no quote comes next.
#[tactic(auto, unfolding(crate::specs::inner::Readers::value))]
fn value(alloc: Global, input: &mut Input<'_>) -> Result<Growing<u8>, Refusal>
    ensures { Reads (spec.value input.old) result input.new }
{
    let quote = input.quote()?;
    quoted(alloc, input, quote)
}

/// Reads this byte, or one byte of white space before it; refuses anything else.
#[tactic(auto, unfolding(crate::specs::inner::Readers::spaced_mark_step))]
fn spaced_mark_step(input: &mut Input<'_>, byte: u8) -> Result<ControlFlow<u8, ()>, Refusal>
    ensures { Reads (spec.spaced_mark_step byte tt input.old) result input.new }
{
    if input.sees(byte) {
        Ok(ControlFlow::Break(input.mark(byte)?))
    } else {
        input.white()?;
        Ok(ControlFlow::Continue(()))
    }
}

/// White space, and then this byte.
#[tactic(auto, using(dp_grammar::proofs::Turns::turns), unfolding(crate::specs::inner::Readers::spaced_mark))]
pub(crate) fn spaced_mark(input: &mut Input<'_>, byte: u8) -> Result<u8, Refusal>
    ensures { Reads (spec.spaced_mark byte input.old) result input.new }
{
    for _turn in 0..input.left() + 1 {
        match spaced_mark_step(input, byte)? {
            ControlFlow::Continue(()) => {}
            ControlFlow::Break(all) => return Ok(all),
        }
    }
    Err(input.refuse())
}

/// Reads a value, or one byte of white space before it; refuses anything else.
#[tactic(auto, unfolding(crate::specs::inner::Readers::spaced_value_step))]
fn spaced_value_step(
    alloc: Global,
    input: &mut Input<'_>,
) -> Result<ControlFlow<Growing<u8>, ()>, Refusal>
    ensures { Reads (spec.spaced_value_step tt input.old) result input.new }
{
    if input.sees_quote() {
        Ok(ControlFlow::Break(value(alloc, input)?))
    } else {
        input.white()?;
        Ok(ControlFlow::Continue(()))
    }
}

/// White space, and then a value.
#[tactic(auto, using(dp_grammar::proofs::Turns::turns), unfolding(crate::specs::inner::Readers::spaced_value))]
pub(crate) fn spaced_value(alloc: Global, input: &mut Input<'_>) -> Result<Growing<u8>, Refusal>
    ensures { Reads (spec.spaced_value input.old) result input.new }
{
    for _turn in 0..input.left() + 1 {
        match spaced_value_step(alloc, input)? {
            ControlFlow::Continue(()) => {}
            ControlFlow::Break(all) => return Ok(all),
        }
    }
    Err(input.refuse())
}

/// An attribute, behind those that were found.
#[tactic(auto, unfolding(crate::specs::inner::Readers::attribute))]
fn attribute(alloc: Global, input: &mut Input<'_>, mut found: Found) -> Result<Found, Refusal>
    ensures { Reads (spec.attribute found input.old) result input.new }
{
    let name = Bytes::from_slice(alloc, input.name()?)?;
    if !found.lacks(&name) {
        return Err(input.refuse());
    }
    spaced_mark(input, b'=')?;
    let value = spaced_value(alloc, input)?;
    found.add(name, value.into_bytes())?;
    Ok(found)
}

/// Reads one byte of white space or an attribute in a start tag; refuses an attribute without white space before it.
#[tactic(auto, unfolding(crate::specs::inner::Readers::tag_piece, crate::specs::inner::Input::refuse))]
fn tag_piece(alloc: Global, input: &mut Input<'_>, tag: Tag) -> Result<Tag, Refusal>
    ensures { Reads (spec.tag_piece tag input.old) result input.new }
{
    let Tag { found, apart } = tag;
    if input.sees_white() {
        input.white()?;
        return Ok(Tag { found, apart: true });
    }
    if !apart {
        return Err(input.refuse());
    }
    let found = attribute(alloc, input, found)?;
    Ok(Tag {
        found,
        apart: false,
    })
}

/// Whether the start tag that ends here is the whole element.
#[tactic(auto, unfolding(crate::specs::inner::Readers::tag_end))]
fn tag_end(alloc: Global, input: &mut Input<'_>, name: Bytes, tag: Tag) -> Result<StartTag, Refusal>
    ensures { Reads (spec.tag_end name tag input.old) result input.new }
{
    let Tag { found, apart: _ } = tag;
    let is_empty = !input.sees(b'>');
    if is_empty {
        input.word(b"/>")?;
    } else {
        input.mark(b'>')?;
    }
    Ok(StartTag {
        name,
        attributes: found.into_items(alloc)?,
        is_empty,
    })
}

/// Whether what comes next ends a start tag.
pub(crate) fn sees_end(input: &Input<'_>) -> bool
    ensures { result ≡ next (λ b. b == 62 || b == 47) (head input.now) }
{
    input.sees(b'>') || input.sees(b'/')
}

/// Reads the rest of a start tag of this name, behind what was read of it, to its end.
#[tactic(auto, using(dp_grammar::proofs::Turns::turns))]
fn tag_from(
    alloc: Global,
    input: &mut Input<'_>,
    name: Bytes,
    first: Tag,
) -> Result<StartTag, Refusal>
    ensures { Reads (closed (spec.tag_step name) first input.old) result input.new }
{
    let mut state = first;
    for _turn in 0..input.left() + 1 {
        if sees_end(input) {
            return tag_end(alloc, input, name, state);
        }
        state = tag_piece(alloc, input, state)?;
    }
    Err(input.refuse())
}

/// A start tag behind its `<`.
#[tactic(auto, unfolding(crate::specs::inner::Readers::start))]
pub(crate) fn start(alloc: Global, input: &mut Input<'_>) -> Result<StartTag, Refusal>
    ensures { Reads (spec.start input.old) result input.new }
{
    let name = Bytes::from_slice(alloc, input.name()?)?;
    let found = Found::new(alloc);
    tag_from(
        alloc,
        input,
        name,
        Tag {
            found,
            apart: false,
        },
    )
}
