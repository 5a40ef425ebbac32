//! Which statements are quiet.

ghost use Rattle.std.specs.Prelude.{◌≡◌, ◌&&◌, ℕ, is_some, true};
ghost use Rattle.std.specs.Option.{option_copied};
ghost use Rattle.dp_actions.specs.Statements.{statement_run};
ghost use Rattle.dp_meaning.specs.Programs.{setting_of};
ghost use Rattle.dp_meaning.specs.Unwatched as unwatched;
ghost use Rattle.dp_analysis.specs.Quiet as quiet;
ghost use Rattle.dp_analysis.specs.Still.{calls_of};
ghost use Rattle.dp_state.specs.declared.state.State.{State};
ghost use Rattle.dp_tree.specs.declared.bundle.Bundle.{Bundle as SomeBundle};

use dp_analysis::{DeepNames, is_free, statement_is_quiet};
use dp_tree::Statement;

/// Whether a statement includes no file, calls no function of the program that is loud, and has none of these lines. So
/// its moments stand before statements, tests and bindings on other lines, or, where there are names of loud functions,
/// at the begin and the end of other calls; where there are none it calls no function of the program at all. Takes no
/// memory, and walks over the statement up to the first part that is not quiet. None is where one of the lines is 0,
/// the line of no frame.
pub fn is_quiet<'p>(lines: &[u32], loud: Option<&DeepNames<'p>>, statement: &'p Statement) -> bool
    ensures is { result ≡ (quiet.is_free lines.now 0
        && quiet.is_quiet lines.now (calls_of (option_copied loud.entry)) statement.now) }
    ensures zero { result ≡ true → quiet.is_free lines.now 0 ≡ true }
    ensures free { result ≡ true → (bundle : SomeBundle)
        → quiet.AreLoud lines.now bundle (option_copied loud.entry) → (bound depth : ℕ) (s : State)
        → unwatched.OnFree lines.now (is_some (option_copied loud.entry))
        (statement_run statement.now (setting_of bundle bound depth) s) }
{
    is_free(lines, 0) && statement_is_quiet(lines, loud, statement)
}
