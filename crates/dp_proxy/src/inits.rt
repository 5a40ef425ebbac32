//! The key with which an engine comes.
ghost use Rattle.std.specs.Prelude.{◌≡◌, List, ℕ, Some, IfOk, IfErr, MatchResult};
ghost use Rattle.dp_outside.specs.Names.{IsKey};
ghost use Rattle.dp_proxy.specs.declared.errors.InitError.TheVariants.{Memory as OutOfMemory};
ghost use Rattle.dp_proxy.specs.Inits.{GivesKey};

use crate::calls::is_key;
use crate::errors::InitError;
use dp_bytes::Bytes;
use dp_markup::{MarkupError, head_attribute};
use std::alloc::Global;

/// A value that is a key.
fn key_in(value: Option<Bytes>) -> Result<Bytes, InitError>
    ensures found { IfOk result (λ key. (value ≡ Some key) × IsKey key) }
    ensures bad { IfErr result (λ e. (key : List ℕ) → value ≡ Some key → IsKey key → ⊥) }
{
    match value {
        Some(key) => {
            if is_key(key.as_slice()) {
                Ok(key)
            } else {
                Err(InitError::BadInit)
            }
        }
        None => Err(InitError::BadInit),
    }
}

/// The key in the text of an engine's first packet. Reads no further than the end of the root's start tag.
///
/// `BadInit` exactly where the text does not begin as an `init` whose `idekey` is a key.
pub fn key_of_init(alloc: Global, text: &[u8]) -> Result<Bytes, InitError>
    ensures found { IfOk result (GivesKey text.now) }
    ensures only { (key : List ℕ) → GivesKey text.now key
        → MatchResult result (λ found. found ≡ key) (λ e. e ≡ OutOfMemory) }
{
    match head_attribute(alloc, text, b"init", b"idekey") {
        Ok(value) => key_in(value),
        Err(MarkupError::Memory) => Err(InitError::Memory),
        Err(MarkupError::BadMarkup { offset: _ }) => Err(InitError::BadInit),
        Err(MarkupError::TooDeep) => Err(InitError::BadInit),
    }
}
