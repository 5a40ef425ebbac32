//! Jobs, and who starts them beside the caller.
ghost use Rattle.std.specs.Prelude.{◌≡◌, ℕ, ◌<◌, ◌≤◌, [], ◌∷◌, List, Bool, IfOk, IfErr, OnOk, count_by, is_err, is_ok};
ghost use Rattle.std.specs.List.{AllZip};
ghost use Rattle.std.specs.declared.option.Option.{Option};
ghost use Rattle.dp_outside.specs.Causes.{HasCause, Rose};
ghost use Rattle.dp_outside.specs.Jobs.{BackUnlessGranted, RanOrBack};
ghost use Rattle.dp_outside.specs.Reports.{BeginsEmpty, grown};

use crate::beside::{run_beside, run_in_turn};
use crate::crews::{answers_of, ask, note_each, returned, ungranted};
use crate::{Failed, Memory};
use std::alloc::Global;
use std::sync::Wait;
use std::thread::Threads;

/// Work that is run once. What it gives has to be fit for another thread (`Send`) only where the job is run in a thread
/// of its own: `beside` asks that of `other`, `crew` of each job.
pub trait Job: Drop {
    type Done: Drop;

    /// Whether it may be run.
    ghost may_run: { Self → Type 0 };

    /// The job's meaning: what a run of it may give.
    ghost may_give: { Self → Self.Done → Type 0 };

    /// Does the work.
    fn run(self) -> Self::Done
        requires { may_run self }
        ensures { may_give self result };
}

/// Shows a hook of a spawner that it is called by `beside` or `crew`. It is lent for the call alone: nothing outside
/// this crate can make one or keep one.
#[derive(Debug, Drop)]
pub struct Hook {
    held: (),
}

impl Hook {
    /// One hook call of `beside` or `crew`.
    pub(crate) fn new() -> Self {
        Hook { held: () }
    }
}

/// What starts jobs beside the caller. An implementation gives `twin` and the hooks `start`, `note`, `runtime` and
/// `stack_size`.
pub trait Spawner: Sized + Send + Drop {
    type Runtime: Threads + Wait + Sync;

    /// How many starts were refused.
    ghost faults: { Self → ℕ };

    /// Of each start that was asked for, in order, whether it was granted, where it tells them.
    ghost starts: { Self → Option (List Bool) };

    /// A spawner for the same threads. Its count begins with 0. It cannot fail.
    fn twin(&self) -> Self
        ensures fresh { faults result ≡ 0 }
        ensures begins { BeginsEmpty (starts result) };

    /// Whether the next start is granted.
    fn start(&mut self, hook: &Hook) -> Result<(), Failed>
        ensures granted { OnOk result (faults self.new ≡ faults self.old) }
        ensures cause { HasCause (faults self.old) (faults self.new) result }
        ensures starts { starts self.new ≡ grown (starts self.old) (is_ok result ∷ []) };

    /// Counts a start that was granted and that the system refused.
    fn note(&mut self, hook: &Hook)
        ensures rose { Rose (faults self.old) (faults self.new) }
        ensures later { faults self.old ≤ faults self.new }
        ensures starts { starts self.new ≡ starts self.old };

    /// The threads, if there are any: without them jobs run in the caller, one after another.
    fn runtime(&self, hook: &Hook) -> Option<&Self::Runtime>;

    /// How many bytes the stack of each thread takes, or `None` for as many as the system gives by itself. A size that
    /// the system does not give refuses the start.
    fn stack_size(&self, hook: &Hook) -> Option<usize>;

    /// Starts `other` beside the caller, runs `mine` and gives both results. Where the start was refused, both
    /// jobs come back and neither has run. It waits.
    final fn beside<A: Job, B: Job + Send>(
        &mut self,
        mine: A,
        other: B,
    ) -> Result<(A::Done, B::Done), (A, B)>
    where
        B::Done: Send,
        requires mine { A.may_run mine }
        requires other { B.may_run other }
        ensures ok { IfOk result (λ done. A.may_give mine done.0 × B.may_give other done.1) }
        ensures err { IfErr result (λ jobs. (jobs.0 ≡ mine) × (jobs.1 ≡ other)) }
        ensures granted { OnOk result (faults self.new ≡ faults self.old) }
        ensures cause { HasCause (faults self.old) (faults self.new) result }
        ensures start { (granted : Bool) × (starts self.new ≡ grown (starts self.old) (granted ∷ []))
            × BackUnlessGranted granted result }
    {
        let hook = Hook::new();
        if self.start(&hook).is_err() {
            return Err((mine, other));
        }
        let size = self.stack_size(&hook);
        let ran = match self.runtime(&hook) {
            Some(rt) => run_beside(rt, size, mine, other),
            None => Ok(run_in_turn(mine, other)),
        };
        if ran.is_err() {
            self.note(&hook);
        }
        ran
    }

    /// Runs each job beside the caller and gives the answers in the jobs' order. A job whose start was refused
    /// comes back unrun in its place. It waits. Memory is taken before the first start alone.
    final fn crew<J: Job + Send>(
        &mut self,
        alloc: Global,
        jobs: Vec<J>,
    ) -> Result<Vec<Result<J::Done, J>>, Memory>
    where
        J::Done: Send,
        requires ready { (job : _) → J.may_run job }
        ensures answers { IfOk result (λ answers. AllZip (RanOrBack J.may_give)
            jobs.items answers.items) }
        ensures places { IfOk result (λ answers. (granted : List Bool)
            × (starts self.new ≡ grown (starts self.old) granted)
            × AllZip BackUnlessGranted granted answers.items) }
        ensures granted { IfOk result (λ answers. count_by is_err answers.items ≡ 0
            → faults self.new ≡ faults self.old) }
        ensures refused { IfOk result (λ answers. 0 < count_by is_err answers.items
            → Rose (faults self.old) (faults self.new)) }
        ensures later { faults self.old ≤ faults self.new }
    {
        let asked = ask(self, alloc, jobs)?;
        let refused = ungranted(&asked);
        let hook = Hook::new();
        let size = self.stack_size(&hook);
        let answers = answers_of(self.runtime(&hook), size, alloc, asked)?;
        note_each(self, returned(&answers).saturating_sub(refused));
        Ok(answers)
    }
}
