//! The making of a bundle.

ghost use Rattle.std.specs.Prelude.{◌≡◌, ◌⊎◌, Result, Err, IfOk, IfErr, MatchResult};
ghost use Rattle.dp_bundle.specs.Bundles.{AreForBundle, IsAnswer, IsBundleFile, IsRefused, Makes};
ghost use Rattle.dp_bundle.specs.inner.Sources.{source_of as named_source};
ghost use Rattle.dp_tree.specs.declared.bundle.Bundle.{Bundle as Made};
ghost use Rattle.dp_bundle.specs.declared.errors.BundleError.{BundleError as Refusal};
ghost use Rattle.dp_tree.specs.declared.bundle.BundleFile.{BundleFile as MadeFile};

use crate::errors::BundleError;
use dp_bytes::{Bytes, Items};
use dp_parse::{ParseError, parse_file};
use dp_tree::{Bundle, BundleFile, FILE_LIMIT, Files};
use std::alloc::Global;

/// The refusal of the file of this number, whose text has no tree.
fn source_of(number: u32, why: ParseError) -> BundleError
    ensures { result ≡ named_source number why }
{
    match why {
        ParseError::Memory => BundleError::Memory,
        error => BundleError::Source {
            file: number,
            error,
        },
    }
}

/// The file of this number.
fn file_of(alloc: Global, number: u32, name: Bytes, text: Bytes) -> Result<BundleFile, BundleError>
    ensures made { IfOk result (λ file. IsBundleFile (name, text) file) }
    ensures cause { IfErr result (λ e. (e ≡ BundleError.Memory) ⊎ IsRefused number text e) }
    ensures only { (file : MadeFile) → IsBundleFile (name, text) file →
        MatchResult result (λ made. made ≡ file) (λ e. e ≡ BundleError.Memory) }
    ensures refuses { (why : Refusal) → IsRefused number text why →
        MatchResult result (λ _. ⊥) (λ e. (e ≡ why) ⊎ (e ≡ BundleError.Memory)) }
{
    if text.len() > FILE_LIMIT {
        return Err(BundleError::TooLong { file: number });
    }
    match parse_file(alloc, text.as_slice()) {
        Ok(tree) => Ok(BundleFile { name, text, tree }),
        Err(why) => Err(source_of(number, why)),
    }
}

/// Programs that are made of the names and texts of their files.
pub trait FromTexts: Sized {
    /// The program of these files; the first is the main file.
    fn new(alloc: Global, files: Items<(Bytes, Bytes)>) -> Result<Self, BundleError>
        requires { AreForBundle files };
}

impl FromTexts for Bundle {
    /// The program of these files, by their names and texts; the first is the main file.
    ///
    /// The first file that is refused is named: `TooLong` where it is longer than [`FILE_LIMIT`], else `Source` where
    /// its text is no program. Takes time linear in the bytes.
    fn new(alloc: Global, files: Items<(Bytes, Bytes)>) -> Result<Bundle, BundleError>
        requires { AreForBundle files }
        // What is answered is what the files make, unless memory runs out.
        ensures made { (result ≡ Err BundleError.Memory) ⊎ Makes files result }
        // Files make one thing alone, and that is answered, unless memory runs out.
        ensures only { (asked : Result Made Refusal) → Makes files asked → IsAnswer asked result }
    {
        bundle_of(alloc, files)
    }
}

/// The program of these files.
fn bundle_of(alloc: Global, files: Items<(Bytes, Bytes)>) -> Result<Bundle, BundleError>
    requires { AreForBundle files }
    ensures made { (result ≡ Err BundleError.Memory) ⊎ Makes files result }
    ensures only { (asked : Result Made Refusal) → Makes files asked → IsAnswer asked result }
{
    let mut made = Vec::new(alloc);
    for (name, text) in files.into_vec() {
        let file = match file_of(alloc, made.len() as u32, name, text) {
            Ok(file) => file,
            Err(why) => return Err(why),
        };
        made.push(file)?;
    }
    let files = Files::of(alloc, Items::of(made))?;
    Ok(Bundle { files })
}
