//! What holds of every session that listens.
ghost use Rattle.std.specs.Prelude.{◌≡◌, ◌+◌, List, [], ℕ, false, true, Option, Some, None};
ghost use Rattle.dp_async.specs.declared.arrival.Arrival.{Arrival};
ghost use Rattle.dp_async.specs.Heard.{Done, Heard, HeardTo, Situation, standing, with_response};
ghost use Rattle.dp_async.specs.Listens.{asks_to_break, own_response};
ghost use Rattle.dp_async_laws.specs.Looks.{Halt, halt_in, looks_before, looks_to, moment_before};
ghost use Rattle.dp_async_laws.specs.Delivered.{ReportsRun};
ghost use Rattle.dp_command.specs.Lines.{line_of};
ghost use Rattle.dp_command.specs.Refusals.{holds_of, id_of};
ghost use Rattle.dp_command.specs.declared.command.Command.{Command};
ghost use Rattle.dp_command.specs.declared.command.LookRequest.{LookRequest};
ghost use Rattle.dp_command.specs.declared.command.Request.TheVariants.{Look};
ghost use Rattle.dp_command.specs.declared.errors.Refusal.TheVariants.{Duplicate, NoId};
ghost use Rattle.dp_command.specs.declared.line.Line.{Line};
ghost use Rattle.dp_engine.specs.Answers.{turn};
ghost use Rattle.dp_engine.specs.Responses.{fault_in, fault_response};
ghost use Rattle.dp_engine.specs.Session.{State, moments_so_far};
ghost use Rattle.dp_engine.specs.declared.session.SessionEnd.{SessionEnd};
ghost use Rattle.dp_packet.specs.declared.error_codes.ErrorCode.TheVariants.{CommandNotAvailable};
ghost use Rattle.dp_session_laws.specs.Shown.{IsInRun, IsShown, IsTaken};
ghost use Rattle.dp_tree.specs.declared.bundle.Bundle.{Bundle};
ghost use Rattle.dp_wire.specs.Frames.{BeginsCommand};

/// What a session that listens delivers of the program's output, with the rest of its run, is what the program writes
/// with the writes that were accepted, and it ends as with them; of one that was killed it is a front of that.
pub fn heard_is_the_run()
    ensures { (bundle : Bundle) (bound : ℕ) (log : List Arrival) (done : Done) (ended : Option SessionEnd)
        (state : State) (rest : List ℕ) → HeardTo bundle bound log done ended state rest
        → ReportsRun bundle bound state.writes done ended state }
{}

/// Watching changes nothing, with what was heard: where no write was accepted, what is delivered and how the program
/// ends are those of the run that nobody watches.
pub fn listening_changes_nothing()
    ensures { (bundle : Bundle) (bound : ℕ) (log : List Arrival) (done : Done) (ended : Option SessionEnd)
        (state : State) (rest : List ℕ) → HeardTo bundle bound log done ended state rest → state.writes ≡ []
        → ReportsRun bundle bound [] done ended state }
{}

/// Wherever arrivals have led a session it stands in the program's run with the writes that it has accepted, so many
/// moments of that have come as it counts, and what a command looks at there is the program's state there.
pub fn replies_show_the_run()
    ensures in_run { (bundle : Bundle) (bound : ℕ) (log : List Arrival) (done : Done) (s : Situation)
        → Heard bundle bound log done s → IsInRun bundle bound s.state }
    ensures counted { (bundle : Bundle) (bound : ℕ) (log : List Arrival) (done : Done) (s : Situation)
        → Heard bundle bound log done s → s.moments ≡ moments_so_far s.state }
    ensures shown { (bundle : Bundle) (bound : ℕ) (log : List Arrival) (done : Done) (state : State) (moments : ℕ)
        (held : List ℕ) → Heard bundle bound log done (standing None state moments held)
        → (bytes rest : List ℕ) → BeginsCommand held bytes rest
        → (line : Line) (command : Command) (look : LookRequest) → IsTaken state bytes line command
        → command.request ≡ Look look
        → IsInRun bundle bound state × IsShown state line command look (turn state bytes) }
{}

/// A `break` while no continuation is on its way, in which no option stands twice and the id is there, is refused with
/// 5, whatever else stands in it.
pub fn break_is_refused()
    ensures refused { (bytes : List ℕ) (line : Line) → line_of bytes ≡ Some line → asks_to_break (Some line) ≡ true
        → holds_of line Duplicate ≡ false → holds_of line NoId ≡ false
        → own_response (line_of bytes) ≡ Some (fault_response line.name (id_of line) CommandNotAvailable) }
    ensures code { (command id : List ℕ) → fault_in (fault_response command id CommandNotAvailable).body ≡ Some 5 }
    ensures answered { (bundle : Bundle) (bound : ℕ) (log : List Arrival) (done : Done) (state : State) (moments : ℕ)
        (held : List ℕ) → Heard bundle bound log done (standing None state moments held)
        → (bytes rest : List ℕ) → BeginsCommand held bytes rest
        → (line : Line) → line_of bytes ≡ Some line → asks_to_break (Some line) ≡ true
        → holds_of line Duplicate ≡ false → holds_of line NoId ≡ false
        → Heard bundle bound log (with_response (fault_response line.name (id_of line) CommandNotAvailable) done)
        (standing None state moments rest) }
{}

/// In a continuation the input is looked at once at each moment at which it goes on: from moment i so often as moments
/// lie between it and the one at which it stops, once more where a `break` stops it there, and up to the program's end
/// as often as moments have come.
pub fn looks_are_moments()
    ensures { (bundle : Bundle) (bound : ℕ) (log : List Arrival) (done : Done) (s : Situation)
        (heard : Heard bundle bound log done s) (halt : Halt) → halt_in heard ≡ Some halt
        → done.looks ≡ looks_before heard + looks_to halt (moment_before heard) s.moments }
{}
