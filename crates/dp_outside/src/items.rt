//! Jobs over closures.
ghost use Rattle.std.specs.Prelude.{◌≡◌};

use crate::Job;
use std::marker::PhantomData;

/// The job of handing an item to a closure: it may be run where the closure may be called with the item, and gives what
/// that call may answer.
///
/// A closure that is written in a function may use what the bounds of the function allow, and a method of an `impl` may
/// not: so a job that itself starts jobs is one of these.
pub struct ItemJob<'a, T, D, F> {
    item: T,
    work: &'a F,
    done: PhantomData<D>,
}

impl<'a, T, D, F> ItemJob<'a, T, D, F> {
    /// The job of this item.
    pub fn new(item: T, work: &'a F) -> Self
        ensures item { result.item ≡ item }
        ensures work { result.work.now ≡ work.now }
    {
        ItemJob {
            item,
            work,
            done: PhantomData,
        }
    }

    /// The item of a job that came back.
    pub fn item(self) -> T
        ensures { result ≡ self.entry.item }
    {
        let ItemJob {
            item,
            work: _,
            done: _,
        } = self;
        item
    }
}

impl<'a, T: Drop, D, F> Drop for ItemJob<'a, T, D, F> {
    fn drop(self) {
        let ItemJob {
            item: _,
            work: _,
            done: _,
        } = self;
    }
}

impl<'a, T: Drop, D: Send + Drop, F: Fn(T) -> D> Job for ItemJob<'a, T, D, F> {
    type Done = D;

    ghost may_run = { λ job. F.pre job.work.now job.item };

    ghost may_give = { λ job done. F.post job.work.now job.item done };

    fn run(self) -> D {
        let ItemJob {
            item,
            work,
            done: _,
        } = self;
        work(item)
    }
}
