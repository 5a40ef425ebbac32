//! Files in memory, looked up by name.
ghost use Rattle.std.specs.Prelude.{◌≡◌, ◌+◌, ◌≤◌, length, MatchOption, IfOk, IsErrOf, Some};
ghost use Rattle.dp_outside.specs.Files.{Fetches, Lacks, content_of, contents_of};

use crate::{Bytes1, ShelfError};
use std::alloc::Global;

/// The content of the first file of this name.
fn find<'a>(files: &'a [(String, Vec<u8>)], name: &str) -> Option<&'a [u8]>
    ensures { MatchOption result (content_of name.now (contents_of files.now) ≡ None)
        (λ content. content_of name.now (contents_of files.now) ≡ Some content.now) }
{
    let mut rest = files;
    'files: while let [file, after @ ..] = rest {
        if file.0.as_str() == name {
            return Some(file.1.as_slice());
        }
        rest = after;
    }
    None
}

/// What a shelf of these files answers: the first `limit + 1` bytes of the file of that name, or the whole file
/// where it is shorter.
pub(crate) fn fetch_from(
    alloc: Global,
    files: &[(String, Vec<u8>)],
    name: &str,
    limit: usize,
) -> Result<Bytes1, ShelfError>
    ensures length { IfOk result (λ bytes. length bytes ≤ limit + 1) }
    ensures bytes { IfOk result (Fetches (Some (contents_of files.now)) name.now limit) }
    ensures missing { IsErrOf result ShelfError.Missing → Lacks (Some (contents_of files.now)) name.now }
    ensures failed { IsErrOf result ShelfError.Failed → ⊥ }
{
    let content = match find(files, name) {
        Some(content) => content,
        None => return Err(ShelfError::Missing),
    };
    let end = limit.saturating_add(1).min(content.len());
    Ok(Bytes1::of(Vec::from_slice(alloc, &content[..end])?))
}
