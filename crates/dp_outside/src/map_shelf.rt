//! A shelf in memory.
ghost use Rattle.std.specs.Prelude.{◌≡◌, ◌+◌, ◌≤◌, [], ◌∷◌, ◌++◌, length, Err, IfOk, IsErrOf, IsOk, Some, is_err};
ghost use Rattle.dp_outside.specs.Causes.{Rose};
ghost use Rattle.dp_outside.specs.Fakes.{after_call, first_plan, is_due};
ghost use Rattle.dp_outside.specs.Files.{Fetches, Lacks, has_failed, contents_of};

use crate::files::fetch_from;
use crate::names::Names;
use crate::plans::FailPlan;
use crate::{Bytes1, Memory, Shelf, ShelfError};
use std::alloc::Global;
use std::marker::Model;

/// A shelf of files in memory, which fails where it is told to.
///
/// Contracts see the names and contents of its files, the names that it was asked for, and its plan (the numbers of
/// the calls that fail, the calls and the faults so far).
#[derive(Drop)]
pub struct MapShelf {
    files: Vec<(String, Vec<u8>)>,
    fetched: Names,
    plan: FailPlan,
}

impl Model for MapShelf {
    ghost use Rattle.dp_outside.specs.Fakes.{ShelfState};
    ghost use Rattle.dp_outside.specs.Files.{contents_of};

    ghost Value = { ShelfState };

    ghost view = { λ s. record {
      files = contents_of s.files.items;
      fetched = s.fetched.names;
      plan = s.plan;
    } };
}

impl MapShelf {
    /// A shelf of these files. Of two of one name the first counts. Those calls of `fetch` fail whose numbers,
    /// counted from 1, stand in `fails`.
    pub fn new(files: Vec<(String, Vec<u8>)>, fails: Vec<u64>) -> Result<Self, Memory>
        ensures files { IfOk result (λ shelf. shelf.files ≡ contents_of files.items) }
        ensures fetched { IfOk result (λ shelf. shelf.fetched ≡ []) }
        ensures plan { IfOk result (λ shelf. shelf.plan ≡ first_plan fails.items) }
        ensures sure { IsOk result }
    {
        Ok(MapShelf {
            files,
            fetched: Names::new(),
            plan: FailPlan::new(fails),
        })
    }
}

impl Shelf for MapShelf {
    ghost files = { λ s. Some s.files };

    ghost fetched = { λ s. Some s.fetched };

    ghost faults = { λ s. s.plan.faults };

    fn fetch(&mut self, alloc: Global, name: &str, limit: usize) -> Result<Bytes1, ShelfError>
        ensures length { IfOk result (λ bytes. length bytes ≤ limit + 1) }
        ensures bytes { IfOk result (Fetches (Some self.old.files) name.now limit) }
        ensures missing { IsErrOf result ShelfError.Missing → Lacks (Some self.old.files) name.now }
        ensures failed { IsErrOf result ShelfError.Failed → Rose self.old.plan.faults self.new.plan.faults }
        ensures later { self.old.plan.faults ≤ self.new.plan.faults }
        ensures files { self.new.files ≡ self.old.files }
        ensures fetched { self.new.fetched ≡ self.old.fetched ++ name.now ∷ [] }

        // It fails exactly where its plan says so.
        ensures due { has_failed result ≡ is_due self.old.plan }
        ensures plan { self.new.plan ≡ after_call self.old.plan (has_failed result) }
    {
        self.fetched.note(name.as_bytes());
        if self.plan.call().is_err() {
            return Err(ShelfError::Failed);
        }
        fetch_from(alloc, &self.files, name, limit)
    }
}
