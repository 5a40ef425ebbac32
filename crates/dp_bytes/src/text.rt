//! Texts of the language.

ghost use Rattle.std.specs.Prelude.{◌≡◌, ◌==◌, ◌++◌, [], pos, length, IfOk, OnOk, OnErr};

use crate::{Bytes, Memory};
use std::alloc::Global;
use std::hash::{Hash, Hasher};
use std::marker::Model;
use std::rc::Rc;

/// A text: a byte string that may have several owners, each of which sees it as its own. Contracts see the list of its
/// bytes.
#[derive(Debug, Drop)]
pub struct Text {
    kept: Option<Rc<Bytes>>,
}

impl Model for Text {
    ghost use Rattle.std.specs.Prelude.{List, ℕ};

    ghost Value = { List ℕ };

    ghost use Rattle.dp_bytes.specs.inner.Texts.{bytes_behind};

    ghost view = { bytes_behind };
}

/// Two texts are equal where they have the same bytes in the same order.
impl PartialEq for Text {
    ghost use Rattle.std.specs.Cmp.Lexicographic.{pointwise};
    ghost use Rattle.std.specs.Cmp.Rules.{comparing};
    ghost use Rattle.std.proofs.Common.{rules};

    ghost eq = { pointwise ◌==◌ };

    ghost laws = { Prim.search (comparing, rules) };

    fn eq(&self, other: &Text) -> bool {
        self.as_slice() == other.as_slice()
    }
}

impl Eq for Text {
    ghost use Rattle.std.specs.Cmp.Rules.{comparing};
    ghost use Rattle.std.proofs.Common.{rules};

    ghost laws = { Prim.search (comparing, rules) };
}

impl Hash for Text {
    ghost use Rattle.std.specs.Hash as fed;
    ghost use Rattle.std.specs.Cmp.Rules.{hashing};
    ghost use Rattle.std.proofs.Common.{rules};

    ghost hash_input = { fed.slice fed.u8 };

    ghost respects_eq = { Prim.search (hashing, rules) };

    fn hash<H: Hasher>(&self, state: &mut H) {
        self.as_slice().hash(state);
    }
}

impl Text {
    /// The text without bytes. Takes no memory.
    pub fn empty() -> Text
        ensures { result ≡ [] }
    {
        Text { kept: None }
    }

    /// The text of these bytes, which are not copied.
    pub fn of(alloc: Global, bytes: Vec<u8>) -> Result<Text, Memory>
        ensures { IfOk result (λ text. text ≡ bytes.items) }
    {
        match Rc::new(alloc, Bytes::of(bytes)) {
            Ok(bytes) => Ok(Text { kept: Some(bytes) }),
            Err(_) => Err(Memory),
        }
    }

    /// The text of a copy of these bytes.
    pub fn from_slice(alloc: Global, bytes: &[u8]) -> Result<Text, Memory>
        ensures { IfOk result (λ text. text ≡ bytes.now) }
    {
        Text::of(alloc, Vec::from_slice(alloc, bytes)?)
    }

    /// The bytes as a slice. Takes no memory.
    pub fn as_slice(&self) -> &[u8]
        ensures { result.now ≡ self.now }
    {
        match &self.kept {
            None => &[],
            Some(bytes) => bytes.as_ref().as_slice(),
        }
    }

    /// The number of bytes.
    pub fn len(&self) -> usize
        ensures { result ≡ length self.now }
    {
        self.as_slice().len()
    }

    /// The number of bytes as an integer of the language.
    pub fn size(&self) -> i64
        ensures { result ≡ pos (length self.now) }
    {
        self.as_slice().len() as i64
    }

    /// Whether there is no byte.
    pub fn is_empty(&self) -> bool
        ensures { result ≡ (length self.now == 0) }
    {
        self.as_slice().is_empty()
    }

    /// The same text for one more owner. Its bytes are not copied.
    pub fn try_clone(&self) -> Result<Text, Memory>
        ensures { IfOk result (λ copy. copy ≡ self.now) }
    {
        match &self.kept {
            None => Ok(Text { kept: None }),
            Some(bytes) => Ok(Text {
                kept: Some(bytes.clone()?),
            }),
        }
    }

    /// Puts a piece behind the text. If it has no other owner it grows in its place, else its bytes are copied; the
    /// other owners keep the text that they have. After a refusal the text is as before.
    pub fn append(&mut self, alloc: Global, piece: &[u8]) -> Result<(), Memory>
        ensures ok { OnOk result (self.new ≡ self.old ++ piece.now) }
        ensures err { OnErr result (self.new ≡ self.old) }
    {
        if let Some(bytes) = &mut self.kept {
            if let Some(own) = Rc::get_mut(bytes) {
                return own.append(piece);
            }
        }
        self.append_copy(alloc, piece)
    }

    /// Puts a piece behind a copy of the text, which this owner has then.
    fn append_copy(&mut self, alloc: Global, piece: &[u8]) -> Result<(), Memory>
        ensures ok { OnOk result (self.new ≡ self.old ++ piece.now) }
        ensures err { OnErr result (self.new ≡ self.old) }
    {
        let longer = joined(alloc, self.as_slice(), piece)?;
        *self = longer;
        Ok(())
    }
}

/// The text of two pieces.
fn joined(alloc: Global, left: &[u8], right: &[u8]) -> Result<Text, Memory>
    ensures { IfOk result (λ text. text ≡ left.now ++ right.now) }
{
    let mut bytes = Vec::with_capacity(alloc, left.len().saturating_add(right.len()))?;
    bytes.extend_from_slice(left)?;
    bytes.extend_from_slice(right)?;
    Text::of(alloc, bytes)
}
