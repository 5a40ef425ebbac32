//! Reading bytes as markup.

ghost use Rattle.std.specs.Prelude.{◌≡◌, ◌≢◌, ◌-◌, ℕ, IfOk};
ghost use Rattle.dp_markup.specs.Grammar.{IsMarkup, Document, limit};
ghost use Rattle.dp_markup.specs.Grammar.{BeginsWithHead, heads, root_value};
ghost use Rattle.dp_markup.specs.Readable.{IsReadable};
ghost use Rattle.dp_markup.specs.Verdict.{GivesValue, Refuses};
ghost use Rattle.dp_markup.specs.Refused.{IsFirstBad, IsFirstTooDeep};
ghost use Rattle.dp_markup.specs.declared.tree.Element.{Element as Tree};
ghost use Rattle.dp_markup.specs.declared.states.StartTag.{StartTag as Tag};

use crate::documents::document;
use crate::errors::MarkupError;
use crate::input::Input;
use crate::sought::sought_head;
use crate::tree::Element;
use crate::writer::write;
use dp_bytes::Bytes;
use dp_grammar::Refusal;
use std::alloc::Global;

/// At most so many elements are open at a place of what is read: 64.
#[tactic(auto, unfolding(crate::specs::Grammar::limit))]
pub fn level_limit() -> usize
    ensures { result ≡ limit }
{
    64
}

/// The element whose markup the bytes are: a whole text, with or without a declaration.
pub fn read(alloc: Global, bytes: &[u8]) -> Result<Element, MarkupError>
    ensures found { IfOk result (λ e. IsMarkup bytes.now e) }
    ensures only { (e : Tree) → IsMarkup bytes.now e → GivesValue result e }
    ensures readable { IfOk result (λ e. IsReadable limit e) }

    // The offset is that of the first byte with which no text begins, or the length where
    // the end is wrong.
    ensures bad { (at : ℕ) → result ≡ Err (MarkupError.BadMarkup at) →
        IsFirstBad Document limit bytes.now at }
    ensures bad_only { (at : ℕ) → IsFirstBad Document limit bytes.now at →
        Refuses result (MarkupError.BadMarkup at) }
    ensures too_deep { result ≡ Err MarkupError.TooDeep → (at : ℕ) ×
        IsFirstTooDeep Document limit bytes.now at }
    ensures too_deep_only { (at : ℕ) → IsFirstTooDeep Document limit bytes.now at →
        Refuses result MarkupError.TooDeep }
{
    let mut input = Input::new(bytes);
    match document(alloc, &mut input, level_limit()) {
        Ok(e) => Ok(e),
        Err(Refusal::Unexpected(left)) => Err(MarkupError::BadMarkup {
            offset: bytes.len() - left,
        }),
        Err(Refusal::TooDeep(_left)) => Err(MarkupError::TooDeep),
        Err(Refusal::Memory) => Err(MarkupError::Memory),
    }
}

/// The element that is read of what is written of this one: the same.
pub fn reread(alloc: Global, element: &Element) -> Result<Element, MarkupError>
    requires { IsReadable limit element.now }
    ensures { GivesValue result element.now }
{
    let text = write(alloc, element)?;
    read(alloc, text.as_slice())
}

/// The value of the attribute `name` of the root, without reading further than the end of the
/// root's start tag: `None` where the root has another name than `root`, or no such attribute.
/// Never answers `TooDeep`.
pub fn head_attribute(
    alloc: Global,
    bytes: &[u8],
    root: &[u8],
    name: &[u8],
) -> Result<Option<Bytes>, MarkupError>
    ensures found { IfOk result (λ value. (tag : Tag) × BeginsWithHead bytes.now tag ×
        (value ≡ root_value tag root.now name.now)) }
    ensures only { (tag : Tag) → BeginsWithHead bytes.now tag →
        GivesValue result (root_value tag root.now name.now) }
    ensures bad { (at : ℕ) → result ≡ Err (MarkupError.BadMarkup at) →
        IsFirstBad heads 0 bytes.now at }
    ensures bad_only { (at : ℕ) → IsFirstBad heads 0 bytes.now at →
        Refuses result (MarkupError.BadMarkup at) }
    ensures never_too_deep { result ≢ Err MarkupError.TooDeep }
{
    let mut input = Input::new(bytes);
    match sought_head(alloc, &mut input, root, name) {
        Ok(value) => Ok(value),
        Err(Refusal::Unexpected(left)) => Err(MarkupError::BadMarkup {
            offset: bytes.len() - left,
        }),
        Err(Refusal::TooDeep(_left)) => Err(MarkupError::TooDeep),
        Err(Refusal::Memory) => Err(MarkupError::Memory),
    }
}
