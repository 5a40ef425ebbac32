//! Two jobs at once.
ghost use Rattle.std.specs.Prelude.{◌≡◌, IfOk, IfErr};
ghost use Rattle.dp_outside.specs.Jobs.{RanOrBack};

use crate::Job;
use core::thread::Stack;
use std::snapshot::Snapshot;
use std::sync::Wait;
use std::sync::atomic::AtomicBool;
use std::sync::atomic::Ordering::SeqCst;
use std::thread;
use std::thread::{Promise, Threads};

/// What the thread of a job promises of its answer: a result that the job may give, or the job.
pub(crate) struct RunsOrReturns<J: Job>(pub(crate) Snapshot<J>);

impl<J: Job> Drop for RunsOrReturns<J> {
    fn drop(self) {
        let RunsOrReturns(_) = self;
    }
}

impl<J: Job> Promise<Result<J::Done, J>> for RunsOrReturns<J> {
    ghost kept_by = { λ promise answer. RanOrBack J.may_give promise.0.value answer };
}

/// A stack of so many bytes, or of as many as the system gives by itself.
pub(crate) fn stack_of(size: Option<usize>) -> Stack {
    match size {
        Some(size) => Stack::new().stack_size(size),
        None => Stack::new(),
    }
}

/// Runs the job, or hands it back where its start was refused.
pub(crate) fn run_unless<J: Job>(refused: &AtomicBool, job: J) -> Result<J::Done, J>
    requires { J.may_run job }
    ensures { RanOrBack J.may_give job result }
{
    if refused.load(SeqCst) {
        Err(job)
    } else {
        Ok(job.run())
    }
}

/// Runs `other` in a thread of its own beside `mine`, or neither where no thread can be started.
pub(crate) fn run_beside<R: Threads + Wait + Sync, A: Job, B: Job + Send>(
    rt: &R,
    size: Option<usize>,
    mine: A,
    other: B,
) -> Result<(A::Done, B::Done), (A, B)>
where
    B::Done: Send,
    requires mine { A.may_run mine }
    requires other { B.may_run other }
    ensures ok { IfOk result (λ done. A.may_give mine done.0 × B.may_give other done.1) }
    ensures err { IfErr result (λ jobs. (jobs.0 ≡ mine) × (jobs.1 ≡ other)) }
{
    let refused = AtomicBool::new(false);
    let flag = &refused;
    thread::scope(
        thread::scope_env(),
        rt,
        |scope| -> Result<(A::Done, B::Done), (A, B)>
            requires mine { A.may_run mine }
            requires other { B.may_run other }
            ensures ok { IfOk result (λ done. A.may_give mine done.0 × B.may_give other done.1) }
            ensures err { IfErr result (λ jobs. (jobs.0 ≡ mine) × (jobs.1 ≡ other)) }
        {
            let promise = RunsOrReturns(Snapshot::of(&other));
            let started = stack_of(size).spawn_scoped_with(
                scope,
                promise,
                move || -> Result<B::Done, B>
                    requires { B.may_run other }
                    ensures { RanOrBack B.may_give other result }
                { run_unless(flag, other) },
            );
            match started {
                Ok(child) => {
                    let done = mine.run();
                    match child.join(rt) {
                        Ok(beside) => Ok((done, beside)),
                        Err(other) => Ok((done, other.run())),
                    }
                }
                Err(unstarted) => {
                    flag.store(true, SeqCst);
                    match (unstarted.value)() {
                        Ok(beside) => Ok((mine.run(), beside)),
                        Err(other) => Err((mine, other)),
                    }
                }
            }
        },
    )
}

/// Runs one after the other in the caller.
pub(crate) fn run_in_turn<A: Job, B: Job>(mine: A, other: B) -> (A::Done, B::Done)
    requires mine { A.may_run mine }
    requires other { B.may_run other }
    ensures { A.may_give mine result.0 × B.may_give other result.1 }
{
    let done = mine.run();
    (done, other.run())
}
