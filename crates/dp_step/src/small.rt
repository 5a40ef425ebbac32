//! The small steps of a machine: what is in hand is done as far as one of them goes, and what waits for it is pending.

ghost use Rattle.std.specs.Prelude.{◌≡◌, ◌++◌, ◌∷◌, [], ℕ, OnOk};
ghost use Rattle.dp_state.specs.declared.state.State.{State as SomeState};
ghost use Rattle.dp_actions.specs.Bodies.{statements_of as body_of};
ghost use Rattle.dp_actions.specs.Run.{and_then};
ghost use Rattle.dp_actions.specs.Setting.{Setting};
ghost use Rattle.dp_actions.specs.Statements.{body_run};
ghost use Rattle.dp_state.specs.States.{line_of};
ghost use Rattle.dp_small_steps.specs.Rest.{behind, hand_rest, waiting_rest};
ghost use Rattle.dp_small_steps.specs.Parts.{Follows, to_signal};
ghost use Rattle.dp_small_steps.specs.declared.work.Waiting.TheVariants as any_waiting;
ghost use Rattle.dp_step.specs.inner.Moves.{came_to, ends_call as call_ends, leave_if};
ghost use Rattle.dp_small_steps.specs.declared.work.Hand.TheVariants as any_hand;

use crate::machine::{Came, Machine, halted};
use dp_actions::{Signal, enter_call, enter_file, fatal};
use dp_analysis::all_momentless;
use dp_bytes::{Items, Memory};
use dp_small_steps::{Given, Hand, Next, Small, Waiting, Work, first_of, receive};
use dp_state::{FatalKind, MomentKind};
use dp_tree::{Bundle, Expression, Function};
use dp_value::Value;
use std::mem;

impl<'p> Machine<'p> {
    ghost use Rattle.std.specs.Prelude.{◌≡◌, ◌++◌, ◌∷◌, [], ◌<◌, true, OnOk};
    ghost use Rattle.std.specs.List.{list_all};
    ghost use Rattle.dp_analysis.specs.Still.{is_momentless as has_no_moment};
    ghost use Rattle.dp_state.specs.declared.state.State.{State as AnyState};
    ghost use Rattle.dp_step.specs.Stands.{rest_of};
    ghost use Rattle.dp_step.specs.inner.Moves.{Moves, body_with, end_with, file_with, next_with, rest_with};
    ghost use Rattle.dp_step.specs.inner.Moves.{small_with, work_with};

    /// A small step with what is in hand taken out.
    pub(crate) fn small(&mut self) -> Came
        ensures { Moves self.old (rest_of self.old self.old.state) result self.new }
    {
        match mem::replace(&mut self.hand, Hand::Failed) {
            Hand::Give(given) => self.take(given),
            Hand::Values(before, all, at) => self.values_whole(before, all, at),
            Hand::Call(file, function, values) => self.call(file, function, values),
            Hand::Include(file) => self.include(file),
            Hand::Left(signal) => self.left(Value::Null, signal),
            Hand::LeftFile(signal) => self.left(Value::Int(1), signal),
            hand => self.first(hand),
        }
    }

    /// A small step with expressions that are left. All of them are evaluated whole where no moment can come in them.
    fn values_whole(&mut self, before: Items<Value>, all: &'p Items<Expression>, at: usize) -> Came
        ensures { Moves self.old (rest_with self.old (any_hand.Values before all.entry at)
            self.old.state) result self.new }
    {
        if at == 0 && before.as_slice().is_empty() && all_momentless(all.as_slice()) {
            drop(before);
            self.values_at_once(all)
        } else {
            self.first(Hand::Values(before, all, at))
        }
    }

    /// A small step with expressions in which no moment can come.
    fn values_at_once(&mut self, all: &'p Items<Expression>) -> Came
        requires { list_all has_no_moment all.now ≡ true }
        ensures { Moves self.old (rest_with self.old (any_hand.Values [] all.entry 0) self.old.state)
            result self.new }
    {
        match self.whole().values(all.as_slice(), &mut self.state) {
            Ok(values) => self.take(Given::Values(values)),
            Err(why) => halted(why),
        }
    }

    /// A small step with what was in hand.
    pub(crate) fn first(&mut self, hand: Hand<'p>) -> Came
        ensures { Moves self.old (rest_with self.old hand.entry self.old.state) result self.new }
    {
        match first_of(self.alloc, self.bundle, hand, &mut self.state) {
            Ok(small) => self.keep(small),
            Err(why) => halted(why),
        }
    }

    /// Something is given to the innermost item of the pending work.
    pub(crate) fn take(&mut self, given: Given) -> Came
        ensures { Moves self.old (rest_with self.old (any_hand.Give given) self.old.state) result
            self.new }
    {
        match self.pending.pop() {
            None => {
                put_hand(&mut self.hand, Hand::Give(given));
                Came::Done
            }
            Some(Waiting::Part(work)) => self.pass(work, given),
            Some(Waiting::EndCall(depth)) => self.end_call(depth, given),
            Some(Waiting::EndFile(depth)) => self.end_file(depth, given),
        }
    }

    /// Something is given to a part that waited.
    #[inline(always)]
    pub(crate) fn pass(&mut self, work: Work<'p>, given: Given) -> Came
        ensures { Moves self.old (work_with self.old work.entry given self.old.state) result self.new }
    {
        match receive(self.alloc, self.bundle, work, given, &mut self.state) {
            Ok(small) => self.keep(small),
            Err(why) => halted(why),
        }
    }

    /// What a small step comes to is kept.
    #[inline(always)]
    pub(crate) fn keep(&mut self, small: Small<'p>) -> Came
        ensures { Moves self.old (small_with self.old small.entry self.old.state) result self.new }
    {
        let Small { moment, next } = small;
        match self.hold(next) {
            Ok(()) => came_at(moment),
            Err(_) => Came::Failed,
        }
    }

    /// What is to be done next is in hand, and what waits for it is the innermost item of the pending work.
    fn hold(&mut self, next: Next<'p>) -> Result<(), Memory>
        ensures rest { OnOk result ((s : AnyState) → rest_of self.new s ≡ next_with self.old next.entry s) }
        ensures kept { (self.new.bundle.now ≡ self.old.bundle.now) × (self.new.bound ≡ self.old.bound)
            × (self.new.state ≡ self.old.state) }
    {
        let Next { hand, waits } = next;
        match waits {
            None => {
                put_hand(&mut self.hand, hand);
                Ok(())
            }
            Some(work) => self.hold_both(hand, Waiting::Part(work)),
        }
    }

    /// This is in hand, and the innermost item of the pending work is this.
    pub(crate) fn hold_both(&mut self, hand: Hand<'p>, item: Waiting<'p>) -> Result<(), Memory>
        ensures held { OnOk result ((self.new.hand ≡ hand.entry)
            × (self.new.pending.items ≡ self.old.pending.items ++ item.entry ∷ [])) }
        ensures kept { (self.new.bundle.now ≡ self.old.bundle.now) × (self.new.bound ≡ self.old.bound)
            × (self.new.depth ≡ self.old.depth) × (self.new.state ≡ self.old.state) }
    {
        put_hand(&mut self.hand, hand);
        match push_item(&mut self.pending, item) {
            Ok(()) => Ok(()),
            Err(why) => {
                put_hand(&mut self.hand, Hand::Failed);
                Err(why)
            }
        }
    }

    /// A function of a file is called.
    pub(crate) fn call(&mut self, file: u32, function: &'p Function, values: Items<Value>) -> Came
        ensures { Moves self.old (rest_with self.old (any_hand.Call file function.entry values) self.old.state) result
            self.new }
    {
        if self.depth == 0 {
            drop(values);
            halted(fatal(FatalKind::TooDeep, &self.state))
        } else {
            match enter_call(file, function, values, &mut self.state) {
                Ok(()) => self.begin_body(function),
                Err(why) => halted(why),
            }
        }
    }

    /// A function that was entered begins with a moment on its line.
    fn begin_body(&mut self, function: &'p Function) -> Came
        requires { 0 < self.old.depth }
        ensures { Moves self.old (body_with self.old function.now self.old.state) result self.new }
    {
        match self.hold_both(Hand::Each(&function.body, 0), Waiting::EndCall(self.depth)) {
            Ok(()) => {
                self.depth -= 1;
                Came::Moment(MomentKind::Enter, function.line)
            }
            Err(_) => Came::Failed,
        }
    }

    /// The file of this number is included.
    fn include(&mut self, file: u32) -> Came
        ensures { Moves self.old (rest_with self.old (any_hand.Include file) self.old.state) result self.new }
    {
        if self.depth == 0 {
            halted(fatal(FatalKind::TooDeep, &self.state))
        } else {
            match enter_file(self.bundle, file, &mut self.state) {
                Ok(()) => self.begin_file(file),
                Err(why) => halted(why),
            }
        }
    }

    /// A file that was entered begins.
    fn begin_file(&mut self, file: u32) -> Came
        requires { 0 < self.old.depth }
        ensures { Moves self.old (file_with self.old file self.old.state) result self.new }
    {
        match self.hold_both(file_hand(self.bundle, file), Waiting::EndFile(self.depth)) {
            Ok(()) => {
                self.depth -= 1;
                Came::On
            }
            Err(_) => Came::Failed,
        }
    }

    /// The body of a call is done.
    fn end_call(&mut self, depth: u64, given: Given) -> Came
        ensures { Moves self.old (end_with self.old (any_waiting.EndCall depth) given self.old.state) result
            self.new }
    {
        self.depth = depth;
        let leaves = ends_call(&given);
        put_hand(&mut self.hand, call_hand(given));
        if leaves {
            Came::Moment(MomentKind::Leave, self.state.line())
        } else {
            Came::On
        }
    }

    /// The statements of an included file are done.
    fn end_file(&mut self, depth: u64, given: Given) -> Came
        ensures { Moves self.old (end_with self.old (any_waiting.EndFile depth) given self.old.state) result
            self.new }
    {
        self.depth = depth;
        put_hand(&mut self.hand, file_left(given));
        Came::On
    }
}

/// What a small step comes to that may lead to a moment.
fn came_at(moment: Option<(MomentKind, u32)>) -> Came
    ensures { result ≡ came_to moment }
{
    match moment {
        None => Came::On,
        Some((kind, line)) => Came::Moment(kind, line),
    }
}

/// Whether this ends a call.
fn ends_call(given: &Given) -> bool
    ensures { result ≡ call_ends given.now }
{
    match given {
        Given::Signal(_) => true,
        Given::Value(_) => false,
        Given::Values(_) => false,
    }
}

/// What is in hand once the body of a call is done.
fn call_hand<'p>(given: Given) -> Hand<'p>
    ensures { (setting : Setting) (depth : ℕ) (k : Follows) (s : SomeState)
        → waiting_rest setting (any_waiting.EndCall depth) k given s ≡ behind (leave_if (call_ends given) (line_of s))
        (hand_rest setting result k) s }
{
    match given {
        Given::Signal(signal) => Hand::Left(signal),
        Given::Value(value) => Hand::Give(Given::Value(value)),
        Given::Values(values) => Hand::Give(Given::Values(values)),
    }
}

/// What is in hand once the statements of an included file are done.
fn file_left<'p>(given: Given) -> Hand<'p>
    ensures { (setting : Setting) (depth : ℕ) (k : Follows) (s : SomeState)
        → waiting_rest setting (any_waiting.EndFile depth) k given s ≡ hand_rest setting result k s }
{
    match given {
        Given::Signal(signal) => Hand::LeftFile(signal),
        Given::Value(value) => Hand::Give(Given::Value(value)),
        Given::Values(values) => Hand::Give(Given::Values(values)),
    }
}

/// Another thing is in hand.
pub(crate) fn put_hand<'p>(place: &mut Hand<'p>, hand: Hand<'p>)
    ensures { place.new ≡ hand.entry }
{
    drop(mem::replace(place, hand));
}

/// One more item is pending.
fn push_item<'p>(pending: &mut Vec<Waiting<'p>>, item: Waiting<'p>) -> Result<(), Memory>
    ensures { OnOk result (pending.new.items ≡ pending.old.items ++ item.entry ∷ []) }
{
    pending.push(item)?;
    Ok(())
}

/// The statements of the file of this number.
pub(crate) fn file_hand<'p>(bundle: &'p Bundle, file: u32) -> Hand<'p>
    ensures whole { result ≡ any_hand.Failed → ⊥ }
    ensures rest { (setting : Setting) (k : Follows) (s : SomeState)
        → hand_rest setting result k s ≡ and_then (body_run (body_of bundle.now file) setting s) (to_signal k) }
{
    match bundle.files.as_slice().get(file as usize) {
        Some(file) => Hand::Each(&file.tree.body, 0),
        None => Hand::Give(Given::Signal(Signal::Next)),
    }
}
