//! What holds of every session.
ghost use Rattle.std.specs.Prelude.{◌≡◌, ◌≤◌, ◌+◌, List, [], ◌∷◌, ℕ, ◌++◌, length, option_map, Option, Some};
ghost use Rattle.std.specs.List.{flat_map};
ghost use Rattle.dp_tree.specs.FileNames.{file_name_limit};
ghost use Rattle.dp_tree.specs.declared.bundle.Bundle.{Bundle};
ghost use Rattle.dp_command.specs.Lines.{line_of};
ghost use Rattle.dp_command.specs.declared.command.Command.{Command};
ghost use Rattle.dp_command.specs.declared.command.Continuation.{Continuation};
ghost use Rattle.dp_command.specs.declared.command.LookRequest.{LookRequest};
ghost use Rattle.dp_command.specs.declared.command.Request.TheVariants.{Look, Write};
ghost use Rattle.dp_command.specs.declared.command.WriteRequest.{WriteRequest};
ghost use Rattle.dp_command.specs.declared.line.Line.{Line};
ghost use Rattle.dp_engine.specs.Answers.{answer, command_in, id_in, turn};
ghost use Rattle.dp_engine.specs.Passed.{passed_all, StopsPast};
ghost use Rattle.dp_engine.specs.Passes.{arrived, departing};
ghost use Rattle.dp_engine.specs.Refusals.{refusal};
ghost use Rattle.dp_outside.specs.Names.{key_limit};
ghost use Rattle.dp_packet.specs.Messages.{number};
ghost use Rattle.dp_engine.specs.Responses.{fault_in, init_text, main_name, pieces};
ghost use Rattle.dp_engine.specs.Served.{alone, answers, answers_to, ending, ending_with, own, own_with};
ghost use Rattle.dp_engine.specs.Served.{writes, writes_with};
ghost use Rattle.dp_conversation.specs.Growth.{Begins};
ghost use Rattle.dp_session_laws.specs.AllOutput.{all_output, all_output_with, AreBytes, IsRunWith};
ghost use Rattle.dp_session_laws.specs.AllOutput.{NeverRedirects};
ghost use Rattle.dp_session_laws.specs.Pieces.{AreFull};
ghost use Rattle.dp_engine.specs.Session.{depth_at, opening, output_so_far, State};
ghost use Rattle.dp_session_laws.specs.Shown.{IsAccepted, IsInRun, IsShown, IsTaken, WritesNothing};
ghost use Rattle.dp_wire.specs.Frames.{commands_in, packets_in};

/// A response is an error exactly where the table of commands and states says so, and with that code.
pub fn refused_exactly()
    ensures { (state : State) (bytes : List ℕ)
        → fault_in (turn state bytes).response.body ≡ option_map number (refusal state bytes) }
{}

/// What the engine sends, served alone, is whole packets: the first one, and those of its answers. The key has at most
/// 128 bytes, the name of the main file at most 255.
pub fn alone_is_whole_packets()
    ensures { (bundle : Bundle) (bound : ℕ) (key bytes : List ℕ) → AreBytes bytes
        → length key ≤ key_limit → length (main_name bundle) ≤ file_name_limit
        → packets_in (alone bundle bound key bytes)
        ≡ init_text bundle key ∷ (answers bundle bound bytes).packets }
{}

/// More commands only add to what the engine sends.
pub fn more_commands_only_add()
    ensures { (bundle : Bundle) (bound : ℕ) (key bytes more : List ℕ)
        → Begins (alone bundle bound key bytes) (alone bundle bound key (bytes ++ more)) }
{}

/// All that the program writes in a session, wherever it goes, and how it ends, is what it writes and how it ends with
/// the writes that were accepted; of one that was killed it is a front of that.
pub fn session_is_the_run()
    ensures commands { (bundle : Bundle) (bound : ℕ) (commands : List (List ℕ)) → IsRunWith bundle bound
        (writes_with bundle bound commands) (all_output_with bundle bound commands)
        (ending_with bundle bound commands) }
    ensures bytes { (bundle : Bundle) (bound : ℕ) (bytes : List ℕ) → IsRunWith bundle bound
        (writes bundle bound bytes) (all_output bundle bound bytes) (ending bundle bound bytes) }
{}

/// Watching a program changes nothing of what it writes and how it ends, and where its output never goes to the IDE
/// alone the program's own output has all of it.
pub fn watching_changes_nothing()
    ensures run_with { (bundle : Bundle) (bound : ℕ) (commands : List (List ℕ)) → writes_with bundle bound commands ≡ []
        → IsRunWith bundle bound [] (all_output_with bundle bound commands) (ending_with bundle bound commands) }
    ensures own_with { (bundle : Bundle) (bound : ℕ) (commands : List (List ℕ))
        → NeverRedirects (opening bundle bound) commands
        → own_with bundle bound commands ≡ all_output_with bundle bound commands }
    ensures run { (bundle : Bundle) (bound : ℕ) (bytes : List ℕ) → writes bundle bound bytes ≡ []
        → IsRunWith bundle bound [] (all_output bundle bound bytes) (ending bundle bound bytes) }
    ensures own { (bundle : Bundle) (bound : ℕ) (bytes : List ℕ)
        → NeverRedirects (opening bundle bound) (commands_in bytes)
        → own bundle bound bytes ≡ all_output bundle bound bytes }
{}

/// After any commands a session stands in the program's run with the writes that it has accepted, and what a command
/// looks at there is the program's state there.
pub fn replies_show_the_run()
    ensures stands_with { (bundle : Bundle) (bound : ℕ) (commands : List (List ℕ))
        → IsInRun bundle bound (answers_to bundle bound commands).state }
    ensures stands { (bundle : Bundle) (bound : ℕ) (bytes : List ℕ)
        → IsInRun bundle bound (answers bundle bound bytes).state }
    ensures shown { (state : State) (bytes : List ℕ) (line : Line) (command : Command) (look : LookRequest)
        → IsTaken state bytes line command → command.request ≡ Look look
        → IsShown state line command look (turn state bytes) }
{}

/// Passing a continuation moment by moment, up to the first at which it stops, or to the end, and answering it there is
/// what its command leads to; and it comes so far.
pub fn passing_is_answering()
    ensures comes { (state : State) (line : Option Line) (mode : Continuation) → departing state line ≡ Some mode
        → (k : ℕ) × StopsPast k mode (depth_at state) state }
    ensures answers { (state : State) (bytes : List ℕ) (mode : Continuation) (k : ℕ)
        → departing state (line_of bytes) ≡ Some mode → StopsPast k mode (depth_at state) state
        → arrived (command_in (line_of bytes)) (id_in (line_of bytes)) (length (output_so_far state))
        (passed_all (k + 1) state) ≡ answer state bytes }
{}

/// The pieces in which output goes to the IDE are the output, one behind the other; each but the last is full, and none
/// is empty.
pub fn pieces_are_the_output()
    ensures whole { (output : List ℕ) → flat_map (λ piece. piece) (pieces output) ≡ output }
    ensures full { (output : List ℕ) → AreFull (pieces output) }
{}

/// A write is kept exactly where a command asks for it that is not refused.
pub fn writes_are_those_accepted()
    ensures accepted { (state : State) (bytes : List ℕ) (line : Line) (command : Command) (asked : WriteRequest)
        → IsTaken state bytes line command → command.request ≡ Write asked
        → IsAccepted state line command asked (turn state bytes) }
    ensures none_else { (state : State) (bytes : List ℕ) → WritesNothing state bytes
        → (turn state bytes).next.writes ≡ state.writes }
{}
