//! What holds of every session over the gateway.
ghost use Rattle.std.specs.Prelude.{ℕ, List};
ghost use Rattle.dp_dap_laws.specs.Shown.{ShowsRun};
ghost use Rattle.dp_tree.specs.declared.bundle.Bundle.{Bundle};

/// What a session over the gateway tells of the program's output, and behind it what the program writes once the
/// gateway is over, are what the program writes with the writes that were accepted, and it ends as the program does
/// with them; of one that was killed they are a front of that. Where no evaluation succeeded there are no such writes:
/// that is the run that nobody watches.
pub fn gateway_shows_the_run()
    ensures { (bundle : Bundle) (bound : ℕ) (bodies : List (List ℕ)) → ShowsRun bundle bound bodies }
{}
