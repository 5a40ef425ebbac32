//! What holds of names, whatever state is shown.

ghost use Rattle.std.specs.Prelude.{◌≡◌, ◌↔◌, ℕ, List, Some};
ghost use Rattle.dp_state.specs.declared.moments.Path.{Path};
ghost use Rattle.dp_view.specs.Grammar.{spelt, HasFullName};
ghost use Rattle.dp_view.specs.Names.{full_name};
ghost use Rattle.dp_view.specs.NameReader.{path_at};

/// Bytes that spell a path by the grammar of names spell no other, and that one is found from left to right.
pub fn names_have_one_path()
    ensures { (bytes : List ℕ) (path : Path) → spelt bytes path ↔ (path_at bytes ≡ Some path) }
{}

/// The full name of what stands at a path in a context names that path. The path's name is one that a variable may
/// have, and no text among its keys is one that turns into an integer.
pub fn full_names_are_read_back()
    ensures { (id : ℕ) (path : Path) → HasFullName path → path_at (full_name id path) ≡ Some path }
{}
