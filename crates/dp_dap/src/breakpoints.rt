//! The breakpoints that the gateway keeps.

ghost use Rattle.std.specs.Prelude.{◌≡◌, codes, option_and_then, option_map, unwrap_or};
ghost use Rattle.std.specs.List.{find};
ghost use Rattle.std.specs.Str.{bytes_eq};
ghost use Rattle.dp_command.specs.Numbers.{greatest};
ghost use Rattle.dp_bytes.specs.Decimals.{decimal_in};
ghost use Rattle.dp_dap.specs.Answers as spec;

use dp_bytes::{Bytes, are_alike};
use dp_command::number_of;
use dp_packet::Response;

/// A breakpoint that is set: the path by which it was, and its id.
#[derive(Debug, Drop)]
pub struct Kept {
    pub path: Bytes,
    pub id: u32,
}

/// Whether a breakpoint was set by this path, without one leading `/` of each.
pub(crate) fn is_of(path: &[u8], kept: &Kept) -> bool
    ensures { result ≡ spec.is_of path.now kept.now }
{
    are_alike(kept.path.as_slice(), path)
}

/// The value of the attribute `id`.
fn id_text(attributes: &[(Bytes, Bytes)]) -> Option<&[u8]>
    ensures { option_map (λ t. t.now) result
        ≡ option_map (λ a. a.1) (find (λ a. bytes_eq a.0 (codes "id")) attributes.now) }
{
    for attribute in attributes {
        if attribute.0.as_slice() == b"id".as_slice() {
            return Some(attribute.1.as_slice());
        }
    }
    None
}

/// The id of the breakpoint that a response tells.
pub(crate) fn id_in(response: &Response) -> u32
    ensures { result ≡ unwrap_or (option_and_then (decimal_in greatest) (option_map (λ a. a.1)
        (find (λ a. bytes_eq a.0 (codes "id")) response.now.attributes))) 0 }
{
    match id_text(response.attributes.as_slice()) {
        Some(text) => match number_of(text) {
            Some(id) => id,
            None => 0,
        },
        None => 0,
    }
}
