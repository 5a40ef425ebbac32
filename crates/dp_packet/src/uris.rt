//! The URIs of files.
ghost use Rattle.std.specs.Prelude.{◌≡◌, IfOk};
ghost use Rattle.dp_packet.specs.Uris as spec;

use crate::Memory;
use dp_bytes::{Bytes, without_slash};
use percent_encoding::{AsciiSet, NON_ALPHANUMERIC, ascii_set, percent_encode};
use std::alloc::Global;

/// What does not stand for itself in the path of a URI.
const ESCAPED: AsciiSet = ascii_set!(
    NON_ALPHANUMERIC
        .remove(b'-')
        .remove(b'.')
        .remove(b'_')
        .remove(b'~')
        .remove(b'/')
);

/// The URI of the file with this name: `file:///` and the name without one `/` in front, in which every byte but
/// letters, digits, `-`, `.`, `_`, `~` and `/` is `%` and two upper-case hexadecimal digits.
pub fn file_uri(alloc: Global, name: &[u8]) -> Result<Bytes, Memory>
    ensures { IfOk result (λ uri. uri ≡ spec.file_uri name.now) }
{
    let mut uri = String::from_str(alloc, "file:///")?;
    percent_encode(without_slash(name), ESCAPED).append_to(&mut uri)?;
    Ok(Bytes::of(uri.into_bytes()))
}
