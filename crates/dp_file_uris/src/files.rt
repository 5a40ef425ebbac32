//! The file that a value of `-f` names.

ghost use Rattle.std.specs.Prelude.{◌≡◌, ◌<◌, ◌⊎◌, true, length, IfOk, OnErr};
ghost use Rattle.dp_file_uris.specs.Files as spec;
ghost use Rattle.percent_encoding.specs.Percent.{percent_decode as decoded_path};

use dp_bytes::{Bytes, Memory, are_alike};
use dp_tree::Bundle;
use percent_encoding::percent_decode;
use std::alloc::Global;

/// What each file's URI begins with.
const URI_FRONT: &[u8] = b"file:///";

/// The number of the file with a name.
#[tactic(auto, unfolding(crate::specs::Files::file_like))]
fn file_like(bundle: &Bundle, name: &[u8]) -> Option<usize>
    ensures { result ≡ spec.file_like bundle.now name.now }
{
    let mut files = bundle.files.as_slice().iter();
    files.position(|file| are_alike(file.name.as_slice(), name))
}

/// The same as a number of 32 bits. More files than can be numbered do not fit into memory.
fn file_number(bundle: &Bundle, name: &[u8]) -> Result<Option<u32>, Memory>
    ensures number { IfOk result (λ number. number ≡ spec.file_like bundle.now name.now) }
    ensures memory { OnErr result (u32.MAX < length bundle.now.files) }
{
    match file_like(bundle, name) {
        None => Ok(None),
        Some(number) => match u32::try_from(number) {
            Ok(number) => Ok(Some(number)),
            Err(_) => Err(Memory),
        },
    }
}

/// The bytes of a path, with its percent escapes decoded: a `%` without two hexadecimal digits behind it stays.
pub fn decoded(alloc: Global, path: &[u8]) -> Result<Bytes, Memory>
    ensures { IfOk result (λ name. name ≡ decoded_path path.now) }
{
    let mut name = Vec::new(alloc);
    percent_decode(path).append_to(&mut name)?;
    Ok(Bytes::of(name))
}

/// The number of the file that a value of `-f` names, from 0, if the bundle has it. The name is what stands behind
/// `file:///`, with its percent escapes decoded; a value that does not begin so is a name as it is. It is the file's
/// where the two are equal without one leading `/` of each. A file's own URI names it, unless its name begins with `//`
/// ([`crate::file_uris_are_read_back`]).
#[tactic(auto, unfolding(crate::specs::Files::name_in))]
pub fn requested_file(alloc: Global, bundle: &Bundle, value: &[u8]) -> Result<Option<u32>, Memory>
    ensures number { IfOk result (λ number. number ≡ spec.requested_file bundle.now value.now) }
    // Memory is taken only to decode a URI; it also runs out if there are more files than can be numbered.
    ensures memory { OnErr result ((spec.is_uri value.now ≡ true) ⊎ (u32.MAX < length bundle.now.files)) }
{
    if value.starts_with(URI_FRONT) {
        let name = decoded(alloc, &value[URI_FRONT.len()..])?;
        file_number(bundle, name.as_slice())
    } else {
        file_number(bundle, value)
    }
}
