//! The names of files as commands and programs give them.

ghost use Rattle.std.specs.Prelude.{◌≡◌};
ghost use Rattle.std.specs.Str.{bytes_eq};
ghost use Rattle.dp_bytes.specs.Names as spec;

/// A name without one leading `/`.
pub fn without_slash(name: &[u8]) -> &[u8]
    ensures { result.now ≡ spec.without_slash name.now }
{
    match name.split_first() {
        None => name,
        Some((byte, rest)) => {
            if *byte == b'/' {
                return rest;
            }
            name
        }
    }
}

/// Whether two names are the same without one leading `/` of each.
pub fn are_alike(name: &[u8], other: &[u8]) -> bool
    ensures { result ≡ bytes_eq (spec.without_slash name.now) (spec.without_slash other.now) }
{
    without_slash(name) == without_slash(other)
}
