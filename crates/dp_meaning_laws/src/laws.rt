//! The laws, each as the contract of a function that does nothing.
ghost use Rattle.std.specs.Prelude.{◌≡◌, ◌≢◌, ◌↔◌, ◌+◌, ◌<◌, ◌≤◌, suc, List, length, ℕ, Some, Ok};
ghost use Rattle.dp_value.specs.declared.value.Value.{Value};
ghost use Rattle.dp_tree.specs.declared.bundle.Bundle.{Bundle};
ghost use Rattle.dp_tree.specs.declared.tree.Expression.{Expression};
ghost use Rattle.dp_tree.specs.declared.tree.Statement.{Statement};
ghost use Rattle.dp_state.specs.declared.moments.Moment.{Moment};
ghost use Rattle.dp_state.specs.declared.moments.MomentKind.TheVariants.{Place};
ghost use Rattle.dp_state.specs.declared.moments.Outcome.TheVariants as way;
ghost use Rattle.dp_state.specs.declared.moments.Path.{Path};
ghost use Rattle.dp_state.specs.declared.state.State.{State};
ghost use Rattle.dp_state.specs.States.{frame_limit};
ghost use Rattle.dp_meaning.specs.declared.writes.NumberedWrite.{NumberedWrite};
ghost use Rattle.dp_meaning.specs.declared.writes.Write.{Write};
ghost use Rattle.dp_meaning.specs.declared.writes.Write.TheVariants as write;
ghost use Rattle.dp_meaning.specs.declared.writes.WriteAnswer.TheVariants as answer;
ghost use Rattle.dp_actions.specs.Expressions.{evaluation, evaluations};
ghost use Rattle.dp_actions.specs.Loops.{do_turns, turns};
ghost use Rattle.dp_meaning.specs.Programs.{setting_of};
ghost use Rattle.dp_actions.specs.Statements.{body_run, statement_run};
ghost use Rattle.dp_meaning.specs.Trace.{moment_at, now, outcome, program_trace};
ghost use Rattle.dp_actions.specs.Setting.{Setting};
ghost use Rattle.dp_meaning.specs.Writes.{answer_in, evaluated, evaluation_limit, one_write, with_place};
ghost use Rattle.dp_meaning_laws.specs.Coded.{HasCode};
ghost use Rattle.dp_meaning_laws.specs.Limits.{CanStand, IsAmple, SameTraces, trace_by};
ghost use Rattle.dp_meaning_laws.specs.Past.{AgreeBelow, SameUpTo};

/// The past stands: writes at a moment or later leave the moments up to it, and the states in which they come, as
/// they are; and a program that ends before that moment.
pub fn past_stands()
    ensures moments { (bundle : Bundle) (bound n : ℕ) (writes others : List NumberedWrite)
        → AgreeBelow n writes others → SameUpTo bundle bound n writes others }
    ensures end { (bundle : Bundle) (bound n : ℕ) (writes others : List NumberedWrite) → AgreeBelow n writes others
        → length (program_trace bundle bound writes).moments < n
        → program_trace bundle bound writes ≡ program_trace bundle bound others }
{}

/// The moments of a program are numbered from 1, one after another, and never above the bound; its states count them.
/// Where the bound ends it, so many moments have come.
pub fn moments_are_numbered()
    ensures moment { (bundle : Bundle) (bound n : ℕ) (writes : List NumberedWrite) (p : Moment × State)
        → moment_at (program_trace bundle bound writes) (suc n) ≡ Some p
        → (p.0.number ≡ suc n) × (p.1.moments ≡ suc n) × (suc n ≤ bound) }
    ensures end { (bundle : Bundle) (bound : ℕ) (writes : List NumberedWrite)
        → (program_trace bundle bound writes).state.moments ≡ length (program_trace bundle bound writes).moments }
    ensures reached { (bundle : Bundle) (bound : ℕ) (writes : List NumberedWrite)
        → outcome bundle bound writes ≡ way.Bound → length (program_trace bundle bound writes).moments ≡ bound }
{}

/// Each state of a program is a state of its bundle with no more than 1,000 frames: at each moment, before and after
/// its writes, and at the end.
pub fn states_are_of_their_bundle()
    ensures arrived { (bundle : Bundle) (bound n : ℕ) (writes : List NumberedWrite) (p : Moment × State)
        → moment_at (program_trace bundle bound writes) n ≡ Some p → CanStand bundle p.1 }
    ensures now { (bundle : Bundle) (bound n : ℕ) (writes : List NumberedWrite) (s : State)
        → 0 < length bundle.files → now bundle bound writes n ≡ Some s → CanStand bundle s }
    ensures end { (bundle : Bundle) (bound : ℕ) (writes : List NumberedWrite)
        → 0 < length bundle.files → CanStand bundle (program_trace bundle bound writes).state }
{}

/// A moment before a statement, a test or a binding stands on a line of its file that has code.
pub fn places_have_code()
    ensures { (bundle : Bundle) (bound n : ℕ) (writes : List NumberedWrite) (p : Moment × State)
        → moment_at (program_trace bundle bound writes) n ≡ Some p → p.0.kind ≡ Place
        → HasCode bundle p.0.file p.0.line }
{}

/// A program whose loops may have more turns than it may have moments, and whose calls more frames than there can be,
/// has the same trace; so it is with its evaluations at moments. No program ends because it ran out of them.
pub fn more_turns_and_frames_change_no_program()
    ensures { (bundle : Bundle) (bound turns frames others more : ℕ) (writes : List NumberedWrite)
        → bound ≤ turns → frame_limit ≤ frames → evaluation_limit ≤ others → frame_limit ≤ more
        → trace_by bundle bound (setting_of bundle turns frames)
        (record { setting = setting_of bundle others more; list = writes })
        ≡ program_trace bundle bound writes }
{}

/// The same in the midst of a run, of each part of a program.
pub fn more_turns_and_frames_change_no_part()
    ensures statement { (bundle : Bundle) (bound turns frames others more : ℕ) (s : State) → CanStand bundle s
        → IsAmple bound s turns frames → IsAmple bound s others more → (statement : Statement)
        → SameTraces bundle bound (statement_run statement (setting_of bundle turns frames) s)
        (statement_run statement (setting_of bundle others more) s) }
    ensures statements { (bundle : Bundle) (bound turns frames others more : ℕ) (s : State) → CanStand bundle s
        → IsAmple bound s turns frames → IsAmple bound s others more → (statements : List Statement)
        → SameTraces bundle bound (body_run statements (setting_of bundle turns frames) s)
        (body_run statements (setting_of bundle others more) s) }
    ensures expression { (bundle : Bundle) (bound turns frames others more : ℕ) (s : State) → CanStand bundle s
        → IsAmple bound s turns frames → IsAmple bound s others more → (e : Expression)
        → SameTraces bundle bound (evaluation e (setting_of bundle turns frames) s)
        (evaluation e (setting_of bundle others more) s) }
{}

/// A loop that goes on with as many turns as moments may come still goes as with any more of them.
pub fn more_turns_change_no_loop()
    ensures turns { (bundle : Bundle) (bound limit frames n m line : ℕ) (tests after : List Expression)
        (body : Statement)
        (s : State) → CanStand bundle s → IsAmple bound s limit frames
        → bound ≤ s.moments + n → bound ≤ s.moments + m
        → SameTraces bundle bound
        (turns n line (evaluations tests (setting_of bundle limit frames))
        (evaluations after (setting_of bundle limit frames))
        (statement_run body (setting_of bundle limit frames)) s)
        (turns m line (evaluations tests (setting_of bundle limit frames))
        (evaluations after (setting_of bundle limit frames))
        (statement_run body (setting_of bundle limit frames)) s) }
    ensures do_turns { (bundle : Bundle) (bound limit frames n m line : ℕ) (test : Expression) (body : Statement)
        (s : State) → CanStand bundle s → IsAmple bound s limit frames
        → bound ≤ s.moments + n → bound ≤ s.moments + m
        → SameTraces bundle bound
        (do_turns n line (evaluation test (setting_of bundle limit frames))
        (statement_run body (setting_of bundle limit frames)) s)
        (do_turns m line (evaluation test (setting_of bundle limit frames))
        (statement_run body (setting_of bundle limit frames)) s) }
{}

/// A write answers that it is made exactly where it is: `Set` where its place takes the value, a value where its
/// evaluation gives it, and then the state is what that leaves. A write of another answer leaves the state as it is.
pub fn answers_tell_writes()
    ensures place { (setting : Setting) (level context : ℕ) (path : Path) (value : Value) (s : State)
        → (answer_in setting (write.Place level context path value) s ≡ answer.Set)
        ↔ (with_place level context path value s ≡ Ok (one_write setting (write.Place level context path value) s)) }
    ensures value { (setting : Setting) (e : Expression) (v : Value) (s : State)
        → (answer_in setting (write.Evaluate e) s ≡ answer.Value v)
        ↔ (evaluated setting e s ≡ Some (v, one_write setting (write.Evaluate e) s)) }
    ensures other { (setting : Setting) (w : Write) (s : State) → answer_in setting w s ≢ answer.Set
        → ((v : Value) → answer_in setting w s ≢ answer.Value v) → one_write setting w s ≡ s }
{}
