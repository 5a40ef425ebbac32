//! The files of a program, fetched from a shelf.

ghost use Rattle.std.specs.Prelude.{◌≡◌, ◌≤◌, ◌<◌, ◌++◌, ◌∷◌, [], length, map, string_bytes, IfOk, IfErr, OnOk};
ghost use Rattle.dp_outside.specs.Files.{Fetches};
ghost use Rattle.dp_outside.specs.Reports.{grown};
ghost use Rattle.dp_tree.specs.FileNames.{file_count_limit, file_limit};
ghost use Rattle.dp_program.specs.Programs.{AreFetched, IsUnread, ProgramCaused, RequestsFiles};
ghost use Rattle.dp_program.specs.inner.Steps.{FetchCaused, IsNext};

use crate::errors::ProgramError;
use dp_bytes::{Bytes, Items};
use dp_outside::{Shelf, ShelfError};
use dp_tree::FILE_LIMIT;
use std::alloc::Global;

/// The name and the bytes of a fetched file, as `Bundle::new` takes them. The name is copied, the bytes are not.
fn bundle_entry(alloc: Global, name: &str, content: Vec<u8>) -> Result<(Bytes, Bytes), ProgramError>
    ensures ok { IfOk result (λ file. (file.0 ≡ name.now) × (file.1 ≡ content.items)) }
    ensures err { IfErr result (λ why. why ≡ ProgramError.Memory) }
{
    match Bytes::from_slice(alloc, name.as_bytes()) {
        Ok(name) => Ok((name, Bytes::of(content))),
        Err(_) => Err(ProgramError::Memory),
    }
}

/// Fetches the file of this number.
fn fetch<H: Shelf>(
    alloc: Global,
    number: u32,
    name: &str,
    shelf: &mut H,
) -> Result<(Bytes, Bytes), ProgramError>
    ensures ok { IfOk result (λ file. (file.0 ≡ name.now) × Fetches (H.files shelf.old) name.now file_limit file.1) }
    ensures err { IfErr result (λ why. FetchCaused why number name.now (H.files shelf.old) (H.faults shelf.old)
        (H.faults shelf.new)) }
    ensures later { H.faults shelf.old ≤ H.faults shelf.new }
    ensures files { H.files shelf.new ≡ H.files shelf.old }
    ensures asked { H.fetched shelf.new ≡ grown (H.fetched shelf.old) (name.now ∷ []) }
{
    match shelf.fetch(alloc, name, FILE_LIMIT) {
        Ok(content) => bundle_entry(alloc, name, content.into_vec()),
        Err(ShelfError::Failed) => Err(ProgramError::Shelf { file: number }),
        Err(ShelfError::Missing) => Err(ProgramError::Missing { file: number }),
        Err(ShelfError::Memory) => Err(ProgramError::Memory),
    }
}

/// Puts a file behind those that are fetched.
fn keep(fetched: &mut Vec<(Bytes, Bytes)>, file: (Bytes, Bytes)) -> Result<(), ProgramError>
    ensures ok { OnOk result (fetched.new.items ≡ fetched.old.items ++ file ∷ []) }
    ensures err { IfErr result (λ why. why ≡ ProgramError.Memory) }
{
    match fetched.push(file) {
        Ok(()) => Ok(()),
        Err(_) => Err(ProgramError::Memory),
    }
}

/// Fetches one file more.
fn fetch_next<H: Shelf>(
    alloc: Global,
    name: &str,
    shelf: &mut H,
    fetched: &mut Vec<(Bytes, Bytes)>,
) -> Result<(), ProgramError>
    requires { length fetched.old.items < file_count_limit }
    ensures ok { OnOk result (IsNext (H.files shelf.old) name.now fetched.old.items fetched.new.items) }
    ensures err { IfErr result (λ why. FetchCaused why (length fetched.old.items) name.now (H.files shelf.old)
        (H.faults shelf.old) (H.faults shelf.new)) }
    ensures later { H.faults shelf.old ≤ H.faults shelf.new }
    ensures files { H.files shelf.new ≡ H.files shelf.old }
    ensures asked { H.fetched shelf.new ≡ grown (H.fetched shelf.old) (name.now ∷ []) }
{
    match fetch(alloc, fetched.len() as u32, name, shelf) {
        Ok(file) => keep(fetched, file),
        Err(why) => Err(why),
    }
}

/// Fetches files, each once, in their order, up to one that is not fetched. It refuses none for its content.
pub fn fetch_files<H: Shelf>(
    alloc: Global,
    names: &[String],
    shelf: &mut H,
) -> Result<Items<(Bytes, Bytes)>, ProgramError>
    requires { length names.now ≤ file_count_limit }
    ensures ok { IfOk result (λ fetched. AreFetched (H.files shelf.old) (map string_bytes names.now) fetched) }
    ensures err { IfErr result (λ why. ProgramCaused why (H.files shelf.old) (H.faults shelf.old) (H.faults shelf.new)
        (map string_bytes names.now)) }
    ensures unread { IfErr result IsUnread }
    ensures later { H.faults shelf.old ≤ H.faults shelf.new }
    ensures files { H.files shelf.new ≡ H.files shelf.old }
    ensures asked { RequestsFiles result (H.fetched shelf.old) (H.fetched shelf.new) (map string_bytes names.now) }
{
    let mut fetched = Vec::new(alloc);
    for name in names {
        match fetch_next(alloc, name.as_str(), shelf, &mut fetched) {
            Ok(()) => {}
            Err(why) => return Err(why),
        }
    }
    Ok(Items::of(fetched))
}
