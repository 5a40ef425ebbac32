//! The program that the files of a shelf make.

ghost use Rattle.std.specs.Prelude.{◌≡◌, ◌≤◌, map, string_bytes, IfOk, IfErr, Ok, Result};
ghost use Rattle.dp_bundle.specs.Bundles.{AreForBundle, Makes};
ghost use Rattle.dp_tree.specs.FileNames.{AreFileNames};
ghost use Rattle.dp_tree.specs.declared.bundle.Bundle.{Bundle as Program};
ghost use Rattle.dp_bundle.specs.declared.errors.BundleError.{BundleError as Unmade};
ghost use Rattle.dp_program.specs.Programs.{FilesMake, IsComplete, IsRefused, IsUnmade, NamesMake, ProgramCaused};
ghost use Rattle.dp_program.specs.Programs.{RequestsFiles};

use crate::errors::ProgramError;
use crate::fetches::fetch_files;
use dp_bundle::FromTexts;
use dp_bytes::{Bytes, Items};
use dp_outside::Shelf;
use dp_tree::Bundle;
use std::alloc::Global;

/// The program that fetched files make.
pub fn make_program(alloc: Global, fetched: Items<(Bytes, Bytes)>) -> Result<Bundle, ProgramError>
    requires { AreForBundle fetched }
    ensures ok { IfOk result (λ program. Makes fetched (Ok program)) }
    ensures named { IfOk result (λ program. map (λ file. file.name) program.files ≡ map (λ file. file.0) fetched) }
    ensures err { IfErr result (λ why. IsUnmade fetched why) }
    // Files make one thing alone.
    ensures only { (asked : Result Program Unmade) → Makes fetched asked → IsRefused asked result }
{
    match Bundle::new(alloc, fetched) {
        Ok(program) => Ok(program),
        Err(why) => Err(ProgramError::from(why)),
    }
}

/// Fetches the files of these names, of which the first is the main one, and makes their program.
///
/// The files are fetched first, in order, each once; then they are parsed.
pub fn fetch_program<H: Shelf>(
    alloc: Global,
    names: &[String],
    shelf: &mut H,
) -> Result<Bundle, ProgramError>
    requires { AreFileNames (map string_bytes names.now) }
    ensures made { IfOk result (λ program. NamesMake (H.files shelf.old) (map string_bytes names.now) (Ok program)) }
    ensures named { IfOk result (λ program. map (λ file. file.name) program.files ≡ map string_bytes names.now) }
    ensures cause { IfErr result (λ why. ProgramCaused why (H.files shelf.old) (H.faults shelf.old) (H.faults shelf.new)
        (map string_bytes names.now)) }
    // Only these files are asked for, each once, in order: all of them, or those up to one that is not fetched.
    ensures asked { RequestsFiles result (H.fetched shelf.old) (H.fetched shelf.new) (map string_bytes names.now) }
    // What the files of a shelf that tells them make is answered, unless the shelf or memory fails.
    ensures held { (asked : Result Program Unmade) → FilesMake (H.files shelf.old) (map string_bytes names.now) asked
        → IsComplete asked result (H.faults shelf.old) (H.faults shelf.new) }
    ensures later { H.faults shelf.old ≤ H.faults shelf.new }
    ensures files { H.files shelf.new ≡ H.files shelf.old }
{
    match fetch_files(alloc, names, shelf) {
        Ok(fetched) => make_program(alloc, fetched),
        Err(why) => Err(why),
    }
}
