//! Whole texts.

ghost use Rattle.std.specs.Prelude.{true};
ghost use Rattle.dp_markup.specs.inner.Input.{Reads, ReadsSlice};
ghost use Rattle.dp_markup.specs.inner.Readers as spec;

use crate::elements::opened;
use crate::input::Input;
use crate::tree::Element;
use dp_grammar::Refusal;
use std::alloc::Global;
use std::ops::ControlFlow;

/// A comment behind its `<!`.
#[tactic(auto, unfolding(crate::specs::inner::Readers::comment))]
fn comment<'a>(input: &mut Input<'a>) -> Result<&'a [u8], Refusal>
    ensures { ReadsSlice (spec.comment input.old) result input.new }
{
    input.word(b"--")?;
    input.up_to(b"-->")
}

/// A declaration behind its `<?`.
#[tactic(auto, unfolding(crate::specs::inner::Readers::declaration))]
fn declaration<'a>(input: &mut Input<'a>) -> Result<&'a [u8], Refusal>
    ensures { ReadsSlice (spec.declaration input.old) result input.new }
{
    input.word(b"xml")?;
    input.white()?;
    input.up_to(b"?>")
}

/// Reads a comment or the declaration behind its `<`, or ends at the root; refuses a declaration not at the front.
#[tactic(auto, unfolding(crate::specs::inner::Readers::prolog_bracket, crate::specs::inner::Input::refuse))]
fn prolog_bracket(input: &mut Input<'_>, at_first: bool) -> Result<ControlFlow<u8, bool>, Refusal>
    ensures { Reads (spec.prolog_bracket at_first input.old) result input.new }
{
    if input.sees(b'!') {
        input.mark(b'!')?;
        comment(input)?;
        return Ok(ControlFlow::Continue(false));
    }
    if !input.sees(b'?') {
        return Ok(ControlFlow::Break(b'<'));
    }
    if !at_first {
        return Err(input.refuse());
    }
    input.mark(b'?')?;
    declaration(input)?;
    Ok(ControlFlow::Continue(false))
}

/// Reads one byte of white space, a comment or the declaration before the root, or the root's `<`.
#[tactic(auto, unfolding(crate::specs::inner::Readers::prolog_step))]
fn prolog_step(input: &mut Input<'_>, at_first: bool) -> Result<ControlFlow<u8, bool>, Refusal>
    ensures { Reads (spec.prolog_step at_first input.old) result input.new }
{
    if input.sees(b'<') {
        input.mark(b'<')?;
        prolog_bracket(input, at_first)
    } else {
        input.white()?;
        Ok(ControlFlow::Continue(false))
    }
}

/// What stands before the root, and the root's `<`.
#[tactic(auto, using(dp_grammar::proofs::Turns::turns), unfolding(crate::specs::inner::Readers::prolog))]
pub(crate) fn prolog(input: &mut Input<'_>) -> Result<u8, Refusal>
    ensures { Reads (spec.prolog input.old) result input.new }
{
    let mut state = true;
    for _turn in 0..input.left() + 1 {
        match prolog_step(input, state)? {
            ControlFlow::Continue(more) => state = more,
            ControlFlow::Break(all) => return Ok(all),
        }
    }
    Err(input.refuse())
}

/// White space or a comment.
#[tactic(auto, unfolding(crate::specs::inner::Readers::misc))]
fn misc(input: &mut Input<'_>) -> Result<(), Refusal>
    ensures { Reads (spec.misc input.old) result input.new }
{
    if input.sees_white() {
        input.white()?;
    } else {
        input.word(b"<!")?;
        comment(input)?;
    }
    Ok(())
}

/// Reads one byte of white space or a comment behind the root, or ends where nothing is left.
#[tactic(auto, unfolding(crate::specs::inner::Readers::trail_step))]
fn trail_step(
    input: &mut Input<'_>,
    root: Element,
) -> Result<ControlFlow<Element, Element>, Refusal>
    ensures { Reads (spec.trail_step root input.old) result input.new }
{
    if input.has_more() {
        misc(input)?;
        Ok(ControlFlow::Continue(root))
    } else {
        Ok(ControlFlow::Break(root))
    }
}

/// What stands behind the root, to the end.
#[tactic(auto, using(dp_grammar::proofs::Turns::turns), unfolding(crate::specs::inner::Readers::trail))]
fn trail(input: &mut Input<'_>, root: Element) -> Result<Element, Refusal>
    ensures { Reads (spec.trail root input.old) result input.new }
{
    let mut state = root;
    for _turn in 0..input.left() + 1 {
        match trail_step(input, state)? {
            ControlFlow::Continue(more) => state = more,
            ControlFlow::Break(all) => return Ok(all),
        }
    }
    Err(input.refuse())
}

/// A whole text, with so many levels.
#[tactic(auto, unfolding(crate::specs::inner::Readers::document))]
pub(crate) fn document(
    alloc: Global,
    input: &mut Input<'_>,
    level: usize,
) -> Result<Element, Refusal>
    ensures { Reads (spec.document level input.old) result input.new }
{
    prolog(input)?;
    let root = opened(alloc, input, level)?;
    trail(input, root)
}
