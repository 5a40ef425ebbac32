//! A spawner in memory, which runs jobs in turn and refuses the starts that it is told to.
ghost use Rattle.std.specs.Prelude.{◌≡◌, ◌≤◌, ◌∷◌, ◌++◌, [], IfOk, IsOk, OnOk, is_err, is_ok};
ghost use Rattle.dp_outside.specs.Causes.{HasCause, Rose};
ghost use Rattle.dp_outside.specs.Fakes.{after_call, first_plan, is_due, one_more};

use crate::jobs::Hook;
use crate::plans::FailPlan;
use crate::{Failed, GhostList, Memory, Spawner};
use std::alloc::Global;
use std::marker::{Model, PhantomData};
use std::sync::Wait;
use std::thread::Threads;

/// A spawner without threads, which runs jobs one after another in the caller, and refuses the starts that it is told
/// to. `R` is the runtime that it has none of.
///
/// Contracts see its plan (the numbers of the starts that are refused, the starts and the faults so far) and, of each
/// start so far, whether it was granted.
#[derive(Drop)]
pub struct TurnSpawner<R> {
    alloc: Global,
    plan: FailPlan,
    starts: GhostList<bool, (), ()>,
    runtime: PhantomData<R>,
}

impl<R> Model for TurnSpawner<R> {
    ghost use Rattle.std.specs.Prelude.{map};
    ghost use Rattle.dp_outside.specs.Fakes.{TurnState};

    ghost Value = { TurnState };

    ghost view = { λ s. record { plan = s.plan; starts = map (λ t. t.0) s.starts.items } };
}

impl<R> TurnSpawner<R> {
    /// A spawner that refuses the starts whose numbers, counted from 1, stand in `refused`. Takes no memory: the
    /// `Result` is for the form of the others.
    pub fn new(alloc: Global, refused: Vec<u64>) -> Result<Self, Memory>
        ensures plan { IfOk result (λ spawner. spawner.plan ≡ first_plan refused.items) }
        ensures starts { IfOk result (λ spawner. spawner.starts ≡ []) }
        ensures sure { IsOk result }
    {
        Ok(Self::of(alloc, refused))
    }

    /// A spawner that refuses these starts.
    fn of(alloc: Global, refused: Vec<u64>) -> Self
        ensures { result ≡ record { plan = first_plan refused.items; starts = [] } }
    {
        TurnSpawner {
            alloc,
            plan: FailPlan::new(refused),
            starts: GhostList::new(),
            runtime: PhantomData,
        }
    }

    /// How many starts were refused.
    pub fn faults(&self) -> u64
        ensures { result ≡ self.now.plan.faults }
    {
        self.plan.faults()
    }
}

impl<R: Threads + Wait + Sync + Send> Spawner for TurnSpawner<R> {
    ghost use Rattle.std.specs.Prelude.{Some};

    type Runtime = R;

    ghost faults = { λ spawner. spawner.plan.faults };

    ghost starts = { λ spawner. Some spawner.starts };

    /// It refuses no start.
    fn twin(&self) -> Self
        ensures fresh { result.plan.faults ≡ 0 }
        ensures begins { result.starts ≡ [] }
        ensures grants { result.plan ≡ first_plan [] }
    {
        Self::of(self.alloc, Vec::new(self.alloc))
    }

    fn start(&mut self, _hook: &Hook) -> Result<(), Failed>
        ensures granted { OnOk result (self.new.plan.faults ≡ self.old.plan.faults) }
        ensures cause { HasCause self.old.plan.faults self.new.plan.faults result }
        ensures starts { self.new.starts ≡ self.old.starts ++ (is_ok result ∷ []) }

        // It is refused exactly where its plan says so.
        ensures due { is_err result ≡ is_due self.old.plan }
        ensures plan { self.new.plan ≡ after_call self.old.plan (is_err result) }
    {
        let result = self.plan.call();
        self.starts = self.starts.with(&result.is_ok(), &(), &());
        result
    }

    fn note(&mut self, _hook: &Hook)
        ensures rose { Rose self.old.plan.faults self.new.plan.faults }
        ensures later { self.old.plan.faults ≤ self.new.plan.faults }
        ensures starts { self.new.starts ≡ self.old.starts }
        ensures counted { self.new.plan.faults ≡ one_more self.old.plan.faults }
    {
        self.plan.fault();
    }

    fn runtime(&self, _hook: &Hook) -> Option<&R> {
        None
    }

    fn stack_size(&self, _hook: &Hook) -> Option<usize> {
        None
    }
}
