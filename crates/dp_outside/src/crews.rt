//! Many jobs at once. All memory is taken before the first job starts.
ghost use Rattle.std.specs.Prelude.{◌≡◌, ◌<◌, ◌≤◌, [], IfOk, count_by, is_err, length, map, not, vec_capacity};
ghost use Rattle.std.specs.List.{AllZip};
ghost use Rattle.dp_outside.specs.Causes.{Rose};
ghost use Rattle.dp_outside.specs.Jobs.{RanOrBack};
ghost use Rattle.dp_outside.specs.Reports.{grown};
ghost use Rattle.dp_outside.specs.inner.Threads.{Answered, Settled, Started};

use crate::beside::{RunsOrReturns, run_unless, stack_of};
use crate::jobs::Hook;
use crate::{Job, Memory, Spawner};
use std::alloc::Global;
use std::snapshot::Snapshot;
use std::sync::Wait;
use std::sync::atomic::AtomicBool;
use std::sync::atomic::Ordering::SeqCst;
use std::thread;
use std::thread::{PromisedHandle, Scope, Threads};

/// A job, and whether its start was granted.
#[derive(Drop)]
pub(crate) struct Asked<J> {
    job: J,
    granted: bool,
}

/// What became of a job.
type Answer<J> = Result<<J as Job>::Done, J>;

/// A thread that runs a job, or the answer of a job that no thread runs.
type Start<J> = Result<PromisedHandle<Answer<J>, RunsOrReturns<J>>, Answer<J>>;

/// Asks for the start of each job.
#[tactic(auto, using(crate::proofs::GrownLists::grown_by_none, crate::proofs::GrownLists::grown_again))]
pub(crate) fn ask<P: Spawner, J: Job>(
    spawner: &mut P,
    alloc: Global,
    jobs: Vec<J>,
) -> Result<Vec<Asked<J>>, Memory>
    ensures jobs { IfOk result (λ asked. map (λ one. one.job) asked.items ≡ jobs.items) }
    ensures starts { IfOk result (λ asked. P.starts spawner.new
        ≡ grown (P.starts spawner.old) (map (λ one. one.granted) asked.items)) }
    ensures granted { IfOk result (λ asked. count_by (λ one. not one.granted) asked.items ≡ 0
        → P.faults spawner.new ≡ P.faults spawner.old) }
    ensures refused { IfOk result (λ asked. 0 < count_by (λ one. not one.granted) asked.items
        → Rose (P.faults spawner.old) (P.faults spawner.new)) }
    ensures later { P.faults spawner.old ≤ P.faults spawner.new }
{
    let hook = Hook::new();
    let mut asked = Vec::with_capacity(alloc, jobs.len())?;
    for job in jobs {
        let granted = spawner.start(&hook).is_ok();
        asked.push(Asked { job, granted })?;
    }
    Ok(asked)
}

/// How many starts were not granted.
pub(crate) fn ungranted<J>(asked: &[Asked<J>]) -> usize
    ensures { result ≡ count_by (λ one. not one.granted) asked.now }
{
    asked.iter().filter(|one| !one.granted).count()
}

/// How many jobs came back.
pub(crate) fn returned<D, J>(answers: &[Result<D, J>]) -> usize
    ensures { result ≡ count_by is_err answers.now }
{
    answers.iter().filter(|answer| answer.is_err()).count()
}

/// The answers of the jobs: each granted one is run, in a thread of its own where there are threads.
pub(crate) fn answers_of<R: Threads + Wait + Sync, J: Job + Send>(
    rt: Option<&R>,
    size: Option<usize>,
    alloc: Global,
    asked: Vec<Asked<J>>,
) -> Result<Vec<Answer<J>>, Memory>
where
    J::Done: Send,
    requires ready { (job : _) → J.may_run job }
    ensures { IfOk result (λ answers. AllZip (λ one. Settled J.may_give one.job one.granted)
        asked.items answers.items) }
{
    let answers = Vec::with_capacity(alloc, asked.len())?;
    match rt {
        Some(rt) => run_crew(rt, size, alloc, asked, answers),
        None => Ok(run_each(asked, answers)),
    }
}

/// Runs a granted job in the caller.
fn run_one<J: Job>(one: Asked<J>) -> Answer<J>
    requires ready { (job : _) → J.may_run job }
    ensures { Settled J.may_give one.job one.granted result }
{
    let Asked { job, granted } = one;
    if granted { Ok(job.run()) } else { Err(job) }
}

/// Runs the granted jobs in the caller, one after another.
#[tactic(auto, using(crate::proofs::PairedLists::zip_more))]
fn run_each<J: Job>(asked: Vec<Asked<J>>, mut answers: Vec<Answer<J>>) -> Vec<Answer<J>>
    requires ready { (job : _) → J.may_run job }
    requires empty { answers.items ≡ [] }
    requires room { length asked.items ≤ vec_capacity answers }
    ensures { AllZip (λ one. Settled J.may_give one.job one.granted) asked.items result.items }
{
    for one in asked {
        answers.push_reserved(run_one(one));
    }
    answers
}

/// Starts a job in a thread of its own.
fn start_one<'s, E, J: Job + Send + 's>(
    scope: &Scope<'s, E>,
    size: Option<usize>,
    refused: &'s AtomicBool,
    one: Asked<J>,
) -> Start<J>
where
    J::Done: Send,
    requires ready { (job : _) → J.may_run job }
    ensures { Started J.may_give (λ thread. thread.promise.0.value) one.job one.granted result }
{
    let Asked { job, granted } = one;
    if !granted {
        return Err(Err(job));
    }
    let promise = RunsOrReturns(Snapshot::of(&job));
    let started = stack_of(size).spawn_scoped_with(
        scope,
        promise,
        move || -> Result<J::Done, J>
            requires { J.may_run job }
            ensures { RanOrBack J.may_give job result }
        { run_unless(refused, job) },
    );
    match started {
        Ok(thread) => Ok(thread),
        Err(unstarted) => {
            refused.store(true, SeqCst);
            Err((unstarted.value)())
        }
    }
}

/// Starts each granted job in a thread of its own.
#[tactic(auto, using(crate::proofs::PairedLists::zip_more))]
fn start_each<'s, E, J: Job + Send + 's>(
    scope: &Scope<'s, E>,
    size: Option<usize>,
    refused: &'s [AtomicBool],
    asked: Vec<Asked<J>>,
    mut started: Vec<Start<J>>,
) -> Vec<Start<J>>
where
    J::Done: Send,
    requires ready { (job : _) → J.may_run job }
    requires flags { length refused.now ≡ length asked.items }
    requires empty { started.items ≡ [] }
    requires room { length asked.items ≤ vec_capacity started }
    ensures length { length result.items ≡ length asked.items }
    ensures started { AllZip (λ one. Started J.may_give (λ thread. thread.promise.0.value) one.job one.granted)
        asked.items result.items }
{
    for one in asked {
        let flag = &refused[started.len()];
        started.push_reserved(start_one(scope, size, flag, one));
    }
    started
}

/// Waits for a thread, where there is one.
fn join_one<R: Threads, J: Job>(rt: &R, one: Start<J>) -> Answer<J>
    ensures { Answered J.may_give (λ thread. thread.promise.0.value) one result }
{
    match one {
        Ok(thread) => thread.join(rt),
        Err(answer) => answer,
    }
}

/// Waits for each thread.
#[tactic(auto, using(crate::proofs::PairedLists::zip_more))]
fn join_each<R: Threads, J: Job>(
    rt: &R,
    started: Vec<Start<J>>,
    mut answers: Vec<Answer<J>>,
) -> Vec<Answer<J>>
    requires empty { answers.items ≡ [] }
    requires room { length started.items ≤ vec_capacity answers }
    ensures { AllZip (Answered J.may_give (λ thread. thread.promise.0.value)) started.items result.items }
{
    for one in started {
        answers.push_reserved(join_one(rt, one));
    }
    answers
}

/// As many flags as jobs, none of them set.
fn flags(alloc: Global, count: usize) -> Result<Vec<AtomicBool>, Memory>
    ensures { IfOk result (λ flags. length flags.items ≡ count) }
{
    let mut flags = Vec::with_capacity(alloc, count)?;
    for _ in 0..count {
        flags.push(AtomicBool::new(false))?;
    }
    Ok(flags)
}

/// Starts each granted job in a thread of its own, and waits for all.
fn run_scoped<'s, E, R: Threads, J: Job + Send + 's>(
    rt: &R,
    scope: &Scope<'s, E>,
    size: Option<usize>,
    alloc: Global,
    refused: &'s [AtomicBool],
    asked: Vec<Asked<J>>,
    answers: Vec<Answer<J>>,
) -> Result<Vec<Answer<J>>, Memory>
where
    J::Done: Send,
    requires ready { (job : _) → J.may_run job }
    requires flags { length refused.now ≡ length asked.items }
    requires empty { answers.items ≡ [] }
    requires room { length asked.items ≤ vec_capacity answers }
    ensures { IfOk result (λ answers. AllZip (λ one. Settled J.may_give one.job one.granted)
        asked.items answers.items) }
{
    let started = Vec::with_capacity(alloc, asked.len())?;
    let started = start_each(scope, size, refused, asked, started);
    Ok(join_each(rt, started, answers))
}

/// Runs each granted job in a thread of its own. A job whose thread cannot be started comes back.
fn run_crew<R: Threads + Wait + Sync, J: Job + Send>(
    rt: &R,
    size: Option<usize>,
    alloc: Global,
    asked: Vec<Asked<J>>,
    answers: Vec<Answer<J>>,
) -> Result<Vec<Answer<J>>, Memory>
where
    J::Done: Send,
    requires ready { (job : _) → J.may_run job }
    requires empty { answers.items ≡ [] }
    requires room { length asked.items ≤ vec_capacity answers }
    ensures { IfOk result (λ answers. AllZip (λ one. Settled J.may_give one.job one.granted)
        asked.items answers.items) }
{
    let flags = flags(alloc, asked.len())?;
    let refused = flags.as_slice();
    thread::scope(
        thread::scope_env(),
        rt,
        |scope| -> Result<Vec<Answer<J>>, Memory>
            requires ready { (job : _) → J.may_run job }
            requires flags { length refused.now ≡ length asked.items }
            requires empty { answers.items ≡ [] }
            requires room { length asked.items ≤ vec_capacity answers }
            ensures { IfOk result (λ answers. AllZip (λ one. Settled J.may_give one.job one.granted)
                asked.items answers.items) }
        { run_scoped(rt, scope, size, alloc, refused, asked, answers) },
    )
}

/// Counts so many starts that the system refused.
pub(crate) fn note_each<P: Spawner>(spawner: &mut P, count: usize)
    ensures rose { 0 < count → Rose (P.faults spawner.old) (P.faults spawner.new) }
    ensures none { count ≡ 0 → P.faults spawner.new ≡ P.faults spawner.old }
    ensures later { P.faults spawner.old ≤ P.faults spawner.new }
    ensures starts { P.starts spawner.new ≡ P.starts spawner.old }
{
    let hook = Hook::new();
    for _ in 0..count {
        spawner.note(&hook);
    }
}
