//! The rules of statements as one value: how many levels of bodies are left, in how many loops the statements stand,
//! and what reads a body one level down. Each rule is a method of it, so that it is proved by itself.

ghost use Rattle.std.specs.Prelude.{◌≡◌, suc, ◌+◌, ◌<◌, ◌≤◌, ◌^◌, OnOk};
ghost use Rattle.dp_token_rules.specs.inner.Input.{Reads, enter};
ghost use Rattle.dp_parse.specs.inner.Within as limited;

use crate::ended::Body;
use crate::inside::Inside;
use dp_token_rules::{Refusal, Tokens, enter};
use std::alloc::Global;
use std::marker::Model;

/// The rules of statements. A clause sees how many levels of bodies are left, and in how many loops they stand.
#[derive(Drop)]
pub(crate) struct Statements<R: Inside> {
    alloc: Global,
    level: usize,
    loops: u32,
    inner: R,
}

impl<R: Inside> Model for Statements<R> {
    ghost use Rattle.std.specs.Prelude.{ℕ, ◌+◌, ◌<◌, ◌^◌};

    ghost Value = { ℕ × ℕ };

    ghost view = { λ s. (s.level, s.loops) };

    ghost invariant = { λ s. (s.loops + s.level < 2 ^ 32) × R.ready s.inner s.level s.loops };
}

impl<R: Inside> Statements<R> {
    /// The rules with so many levels of bodies left, in so many loops, over what reads a body one level down.
    pub(crate) fn new(alloc: Global, level: usize, loops: u32, inner: R) -> Statements<R>
        requires few { loops + level < 2 ^ 32 }
        requires ready { R.ready inner level loops }
        ensures { result ≡ (level, loops) }
    {
        Statements {
            alloc,
            level,
            loops,
            inner,
        }
    }

    /// The allocator of the trees that the rules make.
    pub(crate) fn alloc(&self) -> Global {
        self.alloc
    }

    /// In how many loops the statements stand.
    pub(crate) fn loops(&self) -> u32
        ensures { result ≡ self.now.1 }
    {
        self.loops
    }

    /// In how many loops the body of a loop among them stands.
    pub(crate) fn one_loop_more(&self) -> u32
        requires { 0 < self.now.0 }
        ensures { result ≡ suc self.now.1 }
    {
        self.loops + 1
    }

    /// Goes on where a level of bodies is left.
    pub(crate) fn enter(&self, tokens: &Tokens<'_>) -> Result<(), Refusal>
        ensures reads { Reads (enter self.now.0 tokens.now) result tokens.now }
        ensures some { OnOk result (0 < self.now.0) }
    {
        enter(self.level, tokens)
    }

    /// A body one level down, in so many loops.
    pub(crate) fn body(&self, tokens: &mut Tokens<'_>, loops: u32) -> Result<Body, Refusal>
        requires some { 0 < self.now.0 }
        requires near { loops ≤ self.now.1 + 1 }
        ensures { Reads (limited.body self.now.0 loops tokens.old) result tokens.new }
    {
        self.inner
            .read(self.alloc, tokens, self.level, self.loops, loops)
    }
}
