//! Sorts of bytes, and runs of them.

ghost use Rattle.std.specs.Prelude.{◌≡◌, ◌≤◌, length};
ghost use Rattle.std.specs.List.{prefix_len};
ghost use Rattle.dp_command.specs.Sorts as sorts;
ghost use Rattle.dp_command.specs.inner.Parts.{test_of, run_at};

/// A sort of bytes of which a part of a line consists.
#[derive(Clone, Copy, Debug)]
pub(crate) enum Sort {
    /// Spaces.
    Space,
    /// What a command's name may hold.
    Name,
    /// What a value without quotes may hold.
    Bare,
    /// What the text of a payload may hold: anything but a space.
    Text,
}

impl Sort {
    /// Whether a byte is of this sort.
    pub(crate) fn has(self, b: u8) -> bool
        ensures { result ≡ test_of self b }
    {
        match self {
            Sort::Space => b == b' ',
            Sort::Name => (b'a' <= b && b <= b'z') || (b'0' <= b && b <= b'9') || b == b'_',
            Sort::Bare => b != b' ' && b != 0 && b != b'"',
            Sort::Text => b != b' ',
        }
    }
}

/// Whether a byte is a letter of ASCII, of either case.
pub(crate) fn is_letter(b: u8) -> bool
    ensures { result ≡ sorts.is_letter b }
{
    (b'a' <= b && b <= b'z') || (b'A' <= b && b <= b'Z')
}

/// How many bytes of a sort stand at the front.
fn run_len(sort: Sort, bytes: &[u8]) -> usize
    ensures value { result ≡ prefix_len (test_of sort) bytes.now }
    ensures within { result ≤ length bytes.now }
{
    let mut n = 0;
    while n < bytes.len() && sort.has(bytes[n]) {
        n += 1;
    }
    n
}

/// The run of bytes of a sort at the front, and what stands behind it.
pub(crate) fn run(sort: Sort, bytes: &[u8]) -> (&[u8], &[u8])
    ensures { (result.0.now, result.1.now) ≡ run_at (test_of sort) bytes.now }
{
    bytes.split_at(run_len(sort, bytes))
}
