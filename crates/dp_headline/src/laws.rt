//! What each IDE receives of the engines of a program.
ghost use Rattle.std.specs.Prelude.{◌≡◌, ◌≢◌, ◌≤◌, List, ℕ, Ok, Err, false, length};
ghost use Rattle.dp_async.specs.declared.service.AsyncServed.{AsyncServed};
ghost use Rattle.dp_engine.specs.Responses.{main_name};
ghost use Rattle.dp_engine.specs.Served as session;
ghost use Rattle.dp_events.specs.declared.event.Act.{Act};
ghost use Rattle.dp_events.specs.declared.event.Event.{Event};
ghost use Rattle.dp_headline.specs.Adapted.{ShowsProgram};
ghost use Rattle.dp_headline.specs.Listened.{IsSound, ShowsHeard};
ghost use Rattle.dp_lanes.specs.declared.lane.LaneKind.TheVariants.{Down};
ghost use Rattle.dp_lanes.specs.Lanes.{is_bad};
ghost use Rattle.dp_outside.specs.Names.{key_limit};
ghost use Rattle.dp_proxy_laws.specs.PlainWords.{IsPlain, given_on};
ghost use Rattle.dp_registry.specs.declared.pass.Pass.{Pass};
ghost use Rattle.dp_session_laws.specs.AllOutput.{AreBytes};
ghost use Rattle.dp_top.specs.Async.{IsServed, Listens, judged};
ghost use Rattle.dp_top.specs.Dap.{Daps, EndsSo};
ghost use Rattle.dp_top.specs.Engines.{engines_of};
ghost use Rattle.dp_top.specs.Failures.{CommandFailure, status_of};
ghost use Rattle.dp_top.specs.Seen.{Seen};
ghost use Rattle.dp_top.specs.Statuses.{memory_status, output_status};
ghost use Rattle.dp_top.specs.Talk.{EndReport};
ghost use Rattle.dp_tree.specs.FileNames.{file_name_limit};
ghost use Rattle.dp_tree.specs.declared.bundle.Bundle.{Bundle};
ghost use Rattle.dp_words.specs.Words.{Address, Invocation};
ghost use Rattle.dp_world.specs.Alone as world;
ghost use Rattle.dp_world.specs.Headline.{EachReceives};

/// What an engine of a program sends, served alone, what goes to its own output, and how its program ends, are those
/// of a session of dp_engine.
pub fn served_alone()
    ensures sent { (bundle : Bundle) (bound : ℕ) (key bytes : List ℕ)
        → world.alone (engines_of bundle bound) key bytes ≡ session.alone bundle bound key bytes }
    ensures own { (bundle : Bundle) (bound : ℕ) (bytes : List ℕ)
        → world.own (engines_of bundle bound) bytes ≡ session.own bundle bound bytes }
    ensures ending { (bundle : Bundle) (bound : ℕ) (bytes : List ℕ)
        → world.ending (engines_of bundle bound) bytes ≡ session.ending bundle bound bytes }
{}

/// For every program, bound and list of events, each IDE receives exactly the whole packets that its engine, served
/// alone with that IDE's commands, would send for the session its key gave it, and nothing of another's.
pub fn each_ide_receives()
    ensures { (bundle : Bundle) (bound : ℕ) (events : List Event) → EachReceives (engines_of bundle bound) events }
{}

/// The same in plain words, where no command passes its limit: what an IDE has given and how much was read of its
/// engine, by what happens on its link alone. The key has at most 128 bytes, the name of the main file at most 255.
pub fn in_plain_words()
    ensures { (bundle : Bundle) (bound : ℕ) (key : List ℕ) (pass : Pass) (acts : List Act)
        → AreBytes (given_on acts) → length key ≤ key_limit → length (main_name bundle) ≤ file_name_limit
        → is_bad Down (given_on acts) ≡ false → IsPlain (engines_of bundle bound) key pass acts }
{}

/// Where `dap` went well, and where it failed though no output did and memory sufficed, it was served whole over the
/// bytes that were read, what it sent and what it put on the error output behind that tell the program's run, and it
/// reports how that ended. Where no evaluation succeeded that is the run that nobody watches.
pub fn dap_shows_its_program()
    ensures done { (status : ℕ) (ask : Invocation) (old new : Seen) → Daps status ask old new
        → ShowsProgram (Ok status) ask old new }
    ensures ended { (why : CommandFailure) (name : List ℕ) (ask : Invocation) (old new : Seen)
        → EndsSo why name ask old new → status_of why ≢ output_status → status_of why ≢ memory_status
        → ShowsProgram (Err (why, name)) ask old new }
{}

/// Where `async` went well, and where its session ended though no output and no link failed and memory sufficed, it was
/// served whole over what was heard, what it sent and what its program's own output has tell the program's run, and it
/// reports how that ended. Where no write was accepted that is the run that nobody watches.
pub fn async_shows_its_program()
    ensures done { (status : ℕ) (address : Address) (key : List ℕ) (ask : Invocation) (old new : Seen)
        → Listens status address key ask old new → ShowsHeard (Ok status) address key ask old new }
    ensures ended { (report : EndReport) (served : AsyncServed) (address : Address) (key : List ℕ) (ask : Invocation)
        (old new : Seen) → IsServed served address key ask old new → judged ask served ≡ report → IsSound report
        → ShowsHeard report address key ask old new }
{}
