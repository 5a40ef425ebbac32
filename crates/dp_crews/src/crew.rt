//! Tasks are done by a crew, each beside the others.
ghost use Rattle.std.specs.Prelude.{◌≡◌, ◌<◌, ◌≤◌, IfOk, count_by, is_err};
ghost use Rattle.std.specs.List.{AllZip};
ghost use Rattle.dp_outside.specs.Causes.{Rose};
ghost use Rattle.dp_outside.specs.Jobs.{RanOrBack};
ghost use Rattle.dp_crews.specs.Tasks.{Did};
ghost use Rattle.dp_crews.specs.inner.Crews.{CameBack};

use crate::tasks::{Task, TaskOver, run_task};
use dp_outside::{Dialer, Gate, ItemJob, Memory, Spawner};
use std::alloc::Global;
use std::sync::Wait;
use std::sync::ledger::Ledger;
use std::thread::Threads;

/// The jobs of handing each item to the closure.
#[tactic(auto, using(crate::proofs::CrewLaws::zip_more))]
fn jobs_of<'a, T: Drop, D, F>(
    alloc: Global,
    items: Vec<T>,
    work: &'a F,
) -> Result<Vec<ItemJob<'a, T, D, F>>, Memory>
    ensures { IfOk result (λ jobs. AllZip (λ item job. (job.item ≡ item) × (job.work.now ≡ work.now))
        items.items jobs.items) }
{
    let mut jobs = Vec::with_capacity(alloc, items.len())?;
    for item in items {
        jobs.push_reserved(ItemJob::new(item, work));
    }
    Ok(jobs)
}

/// What became of an item whose job was asked for.
fn item_back<'a, T: Drop, D: Drop, F>(answer: Result<D, ItemJob<'a, T, D, F>>) -> Result<D, T>
    ensures { CameBack (λ job. job.item) answer.entry result }
{
    match answer {
        Ok(done) => Ok(done),
        Err(job) => Err(job.item()),
    }
}

/// What became of the items.
#[tactic(auto, using(crate::proofs::CrewLaws::zip_more))]
fn items_back<'a, T: Drop, D: Drop, F>(
    alloc: Global,
    answers: Vec<Result<D, ItemJob<'a, T, D, F>>>,
) -> Result<Vec<Result<D, T>>, Memory>
    ensures { IfOk result (λ back. AllZip (CameBack (λ job. job.item)) answers.entry.items back.items) }
{
    let mut back = Vec::with_capacity(alloc, answers.len())?;
    for answer in answers {
        back.push_reserved(item_back(answer));
    }
    Ok(back)
}

/// Does each task beside the caller. A task whose start was refused comes back undone.
pub(crate) fn run_tasks<
    'a,
    R: Threads + Wait + Sync,
    A: Ledger + Send + Sync,
    B: Ledger + Send + Sync,
    C: Ledger + Send + Sync,
    G: Gate,
    H: Gate,
    D: Dialer,
    P: Spawner,
>(
    rt: &R,
    alloc: Global,
    spawner: &mut P,
    tasks: Vec<Task<'a, G, H, D, P, A, B, C>>,
) -> Result<Vec<Result<TaskOver<G, H, A, B, C>, Task<'a, G, H, D, P, A, B, C>>>, Memory>
    ensures done { IfOk result (λ answers. AllZip (RanOrBack (λ task over.
        Did G.Gate H.Gate D.Dialer P.Spawner task.port task.clerk task.count over.closed over.clerk over.over))
        tasks.entry.items answers.items) }
    ensures refused { IfOk result (λ answers. 0 < count_by is_err answers.items
        → Rose (P.faults spawner.old) (P.faults spawner.new)) }
    ensures later { P.faults spawner.old ≤ P.faults spawner.new }
{
    let run = |task: Task<G, H, D, P, A, B, C>| -> TaskOver<G, H, A, B, C>
        ensures { Did G.Gate H.Gate D.Dialer P.Spawner task.entry.port task.entry.clerk task.entry.count
            result.closed result.clerk result.over }
    { run_task(rt, alloc, task) };
    let jobs = jobs_of(alloc, tasks, &run)?;
    let answers = spawner.crew(alloc, jobs)?;
    items_back(alloc, answers)
}
