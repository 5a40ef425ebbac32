//! Lists of attributes.
ghost use Rattle.std.specs.Prelude.{◌≡◌, ◌++◌, ◌∷◌, [], OnOk, OnErr};

use crate::Memory;
use dp_bytes::Bytes;
use std::alloc::Global;

/// Puts an attribute behind the others. Its name and its value are copied. The only error is
/// `Memory`, and then the attributes are what they were.
pub fn put_attribute(
    alloc: Global,
    attributes: &mut Vec<(Bytes, Bytes)>,
    name: &[u8],
    value: &[u8],
) -> Result<(), Memory>
    ensures ok { OnOk result (attributes.new.items ≡
        attributes.old.items ++ (name.now, value.now) ∷ []) }
    ensures err { OnErr result (attributes.new.items ≡ attributes.old.items) }
{
    let pair = (
        Bytes::from_slice(alloc, name)?,
        Bytes::from_slice(alloc, value)?,
    );
    attributes.push(pair)?;
    Ok(())
}
