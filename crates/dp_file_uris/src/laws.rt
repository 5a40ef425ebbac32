//! What holds of the URIs of files, whatever a program holds.

ghost use Rattle.std.specs.Prelude.{◌≡◌, ◌<◌, ◌^◌, ℕ, false, All, Some, codes, map, nat_eq, slice_get};
ghost use Rattle.std.specs.List.{starts_with};
ghost use Rattle.dp_file_uris.specs.Files.{requested_file};
ghost use Rattle.dp_packet.specs.Uris.{file_uri};
ghost use Rattle.dp_tree.specs.FileNames.{AreFileNames};
ghost use Rattle.dp_tree.specs.declared.bundle.Bundle.{Bundle};
ghost use Rattle.dp_tree.specs.declared.bundle.BundleFile.{BundleFile};

/// The URI of a file, which packets show, names that file in a command, unless the file's name begins with `//`: a URI
/// has the name without one leading `/`, and a command's value goes without one more.
pub fn file_uris_are_read_back()
    ensures { (bundle : Bundle) (number : ℕ) (file : BundleFile)
        → AreFileNames (map (λ f. f.name) bundle.files) → All (λ byte. byte < 2 ^ 8) file.name
        → slice_get bundle.files number ≡ Some file → starts_with nat_eq file.name (codes "//") ≡ false
        → requested_file bundle (file_uri file.name) ≡ Some number }
{}
