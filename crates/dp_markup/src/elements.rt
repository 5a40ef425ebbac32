//! Elements and what stands in them.

ghost use Rattle.std.specs.Prelude.{◌≡◌, IfOk};
ghost use Rattle.dp_markup.specs.Grammar as grammar;
ghost use Rattle.dp_markup.specs.inner.Input.{Reads, closed, made};
ghost use Rattle.dp_markup.specs.inner.Readers as spec;

use crate::Memory;
use crate::attributes::{spaced_mark, start};
use crate::input::Input;
use crate::lists::Growing;
use crate::states::{Content, StartTag};
use crate::tree::{Element, Node};
use dp_grammar::Refusal;
use std::alloc::Global;
use std::ops::ControlFlow;

/// The nodes so far, with the text that ends here, if there is one.
fn nodes_of(content: Content) -> Result<Growing<Node>, Memory>
    ensures { IfOk result (λ nodes. nodes ≡ grammar.nodes_of content) }
{
    let Content { mut nodes, run } = content;
    if !run.is_empty() {
        nodes.push(Node::Text(run.into_bytes()))?;
    }
    Ok(nodes)
}

/// The content with the text that ends here, if there is one, and this child behind its nodes.
fn with_child(alloc: Global, content: Content, child: Element) -> Result<Content, Memory>
    ensures { IfOk result (λ more. more ≡ grammar.with_child content child) }
{
    let mut nodes = nodes_of(content)?;
    nodes.push(Node::Child(child))?;
    Ok(Content {
        nodes,
        run: Growing::new(alloc),
    })
}

/// An end tag behind its `</`.
#[tactic(auto, unfolding(crate::specs::inner::Readers::end_tag))]
fn end_tag(input: &mut Input<'_>, name: &[u8]) -> Result<u8, Refusal>
    ensures { Reads (spec.end_tag name.now input.old) result input.new }
{
    input.word(name)?;
    spaced_mark(input, b'>')
}

/// A section behind its `<!`: its bytes.
#[tactic(auto, unfolding(crate::specs::inner::Readers::cdata))]
fn cdata(input: &mut Input<'_>, mut content: Content) -> Result<Content, Refusal>
    ensures { Reads (made spec.cdata (grammar.with_bytes content) input.old) result input.new }
{
    input.word(b"[CDATA[")?;
    let bytes = input.up_to(b"]]>")?;
    content.run.extend(bytes)?;
    Ok(content)
}

/// Reads what stands behind a `<` in an element: its end tag, a section or a child.
#[cycle(elements)]
#[tactic(auto, unfolding(crate::specs::inner::Readers::bracket))]
fn bracket(
    alloc: Global,
    input: &mut Input<'_>,
    level: usize,
    name: &[u8],
    content: Content,
) -> Result<ControlFlow<Growing<Node>, Content>, Refusal>
    ensures { Reads (spec.bracket (spec.opened level) name.now content input.old) result input.new }
{
    if input.sees(b'/') {
        input.mark(b'/')?;
        end_tag(input, name)?;
        return Ok(ControlFlow::Break(nodes_of(content)?));
    }
    if input.sees(b'!') {
        input.mark(b'!')?;
        return Ok(ControlFlow::Continue(cdata(input, content)?));
    }
    let child = opened(alloc, input, level)?;
    Ok(ControlFlow::Continue(with_child(alloc, content, child)?))
}

/// Reads one part of what stands in an element: a byte of text, a section, a child or the end tag.
#[cycle(elements)]
#[tactic(auto, unfolding(crate::specs::inner::Readers::content_step))]
fn content_step(
    alloc: Global,
    input: &mut Input<'_>,
    level: usize,
    name: &[u8],
    mut content: Content,
) -> Result<ControlFlow<Growing<Node>, Content>, Refusal>
    ensures { Reads (spec.content_step (spec.opened level) name.now content input.old) result input.new }
{
    if input.sees(b'<') {
        input.mark(b'<')?;
        bracket(alloc, input, level, name, content)
    } else {
        let byte = input.content_byte()?;
        content.run.push(byte)?;
        Ok(ControlFlow::Continue(content))
    }
}

/// Reads the rest of what stands in an element, behind what was read of it, and the end tag.
#[cycle(elements)]
#[tactic(auto, using(dp_grammar::proofs::Turns::turns))]
fn inside_from(
    alloc: Global,
    input: &mut Input<'_>,
    level: usize,
    name: &[u8],
    first: Content,
) -> Result<Growing<Node>, Refusal>
    ensures { Reads (closed (spec.content_step (spec.opened level) name.now) first input.old) result input.new }
{
    let mut state = first;
    for _turn in 0..input.left() + 1 {
        match content_step(alloc, input, level, name, state)? {
            ControlFlow::Continue(more) => state = more,
            ControlFlow::Break(all) => return Ok(all),
        }
    }
    Err(input.refuse())
}

/// What stands between the tags, and the end tag.
#[cycle(elements)]
#[tactic(auto, unfolding(crate::specs::inner::Readers::inside))]
fn inside(
    alloc: Global,
    input: &mut Input<'_>,
    level: usize,
    name: &[u8],
) -> Result<Growing<Node>, Refusal>
    ensures { Reads (spec.inside (spec.opened level) name.now input.old) result input.new }
{
    let nodes = Growing::new(alloc);
    let run = Growing::new(alloc);
    inside_from(alloc, input, level, name, Content { nodes, run })
}

/// Reads the rest of an element behind its start tag, which is nothing where the tag is the whole element.
#[cycle(elements)]
#[tactic(auto, unfolding(crate::specs::inner::Readers::behind_start))]
fn behind_start(
    alloc: Global,
    input: &mut Input<'_>,
    level: usize,
    tag: StartTag,
) -> Result<Element, Refusal>
    ensures { Reads (spec.behind_start (spec.opened level) tag.is_empty tag input.old) result input.new }
{
    let StartTag {
        name,
        attributes,
        is_empty,
    } = tag;
    let children = if is_empty {
        Growing::new(alloc)
    } else {
        inside(alloc, input, level, name.as_slice())?
    };
    Ok(Element {
        name,
        attributes,
        children: children.into_items(),
    })
}

/// Reads an element behind its `<`, whose children have so many levels.
#[cycle(elements)]
#[tactic(auto, unfolding(crate::specs::inner::Readers::element_in))]
fn element_in(alloc: Global, input: &mut Input<'_>, level: usize) -> Result<Element, Refusal>
    ensures { Reads (spec.element_in (spec.opened level) input.old) result input.new }
{
    let tag = start(alloc, input)?;
    behind_start(alloc, input, level, tag)
}

/// An element behind its `<`, with so many levels.
#[cycle(elements)]
#[tactic(auto, using(crate::proofs::Levels::opened_none, crate::proofs::Levels::opened_some), unfolding(crate::specs::inner::Readers::no_level, crate::specs::inner::Input::refuse))]
pub(crate) fn opened(alloc: Global, input: &mut Input<'_>, level: usize) -> Result<Element, Refusal>
    ensures { Reads (spec.opened level input.old) result input.new }
{
    if level > 0 {
        return element_in(alloc, input, level - 1);
    }
    if input.sees_name() {
        Err(Refusal::TooDeep(input.left()))
    } else {
        Err(input.refuse())
    }
}
