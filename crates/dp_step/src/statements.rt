//! Small steps with statements, which move nothing large: what is in hand is looked at where it is, and what is done
//! next is written where it stands. A function has no large local, since each is cleared where the function begins,
//! whichever way it goes.

ghost use Rattle.std.specs.Prelude.{◌≡◌, true};
ghost use Rattle.dp_actions.specs.declared.signal.Signal.TheVariants.{Next as NextSignal};
ghost use Rattle.dp_small_steps.specs.declared.work.Given.TheVariants as any_given;
ghost use Rattle.dp_small_steps.specs.declared.work.Hand.TheVariants as any_hand;

use crate::machine::{Came, Machine, halted};
use crate::small::put_hand;
use crate::tests::test_holds;
use dp_actions::{Signal, integer, then_print};
use dp_analysis::is_momentless;
use dp_bytes::Items;
use dp_small_steps::{AfterValue, ForSignal, Given, Hand, Waiting, Work, begin};
use dp_state::MomentKind;
use dp_tree::{Arm, Boxed, Expression, Statement, StatementKind};
use dp_value::Value;

impl<'p> Machine<'p> {
    ghost use Rattle.std.specs.Prelude.{[], Some};
    ghost use Rattle.dp_actions.specs.Run.{At};
    ghost use Rattle.dp_actions.specs.Statements.{return_run, statement_run};
    ghost use Rattle.dp_state.specs.declared.moments.MomentKind.TheVariants as any_moment;
    ghost use Rattle.dp_step.specs.Stands.{rest_of};
    ghost use Rattle.dp_step.specs.inner.Leaps.{part_with};
    ghost use Rattle.dp_step.specs.inner.Moves.{Moves, follows_of, next_with, rest_with};
    ghost use Rattle.dp_small_steps.specs.Rest.{arms_part};
    ghost use Rattle.dp_small_steps.specs.declared.work.Given.TheVariants as any_given;
    ghost use Rattle.dp_small_steps.specs.declared.work.Hand.TheVariants as any_hand;

    /// A small step.
    pub(crate) fn go(&mut self) -> Came
        ensures { Moves self.old (rest_of self.old self.old.state) result self.new }
    {
        match &self.hand {
            Hand::Effect(e) => {
                let e = *e;
                self.effect(e)
            }
            Hand::Returning(e) => {
                let e = *e;
                self.returning(e)
            }
            Hand::Choose(all, at, otherwise) => {
                let all = *all;
                let at = *at;
                let otherwise = *otherwise;
                self.choose(all, at, otherwise)
            }
            Hand::Arms(all, at, otherwise) => {
                let all = *all;
                let at = *at;
                let otherwise = *otherwise;
                self.arms(all, at, otherwise)
            }
            _ => self.go_by_statement(),
        }
    }

    /// A small step by the statement or the expression that is in hand, if one is.
    fn go_by_statement(&mut self) -> Came
        ensures { Moves self.old (rest_of self.old self.old.state) result self.new }
    {
        match &self.hand {
            Hand::Run(statement) => {
                let statement = *statement;
                self.begin(statement)
            }
            Hand::Each(all, at) => {
                let all = *all;
                let at = *at;
                self.each(all, at)
            }
            Hand::Evaluate(e) => {
                let e = *e;
                self.evaluate_whole(e)
            }
            Hand::Echo(all, at) => {
                let all = *all;
                let at = *at;
                self.echo(all, at)
            }
            _ => self.go_by_signal(),
        }
    }

    /// A small step by the signal to go on, if that is in hand.
    fn go_by_signal(&mut self) -> Came
        ensures { Moves self.old (rest_of self.old self.old.state) result self.new }
    {
        if is_next(&self.hand) {
            self.on()
        } else {
            self.small()
        }
    }

    /// This is in hand.
    pub(crate) fn put(&mut self, hand: Hand<'p>) -> Came
        ensures { Moves self.old (rest_with self.old hand.entry self.old.state) result self.new }
    {
        put_hand(&mut self.hand, hand);
        Came::On
    }

    /// This is in hand, and this waits for it.
    fn wait(&mut self, hand: Hand<'p>, work: Work<'p>) -> Came
        ensures { Moves self.old (next_with self.old (record { hand = hand.entry; waits = Some work.entry })
            self.old.state) result self.new }
    {
        match self.hold_both(hand, Waiting::Part(work)) {
            Ok(()) => Came::On,
            Err(_) => Came::Failed,
        }
    }

    /// This is in hand, behind a moment on this line.
    pub(crate) fn placed(&mut self, line: u32, hand: Hand<'p>) -> Came
        ensures { Moves self.old (At any_moment.Place line self.old.state (rest_with self.old hand.entry)) result
            self.new }
    {
        put_hand(&mut self.hand, hand);
        Came::Moment(MomentKind::Place, line)
    }

    /// The beginning of a statement.
    fn begin(&mut self, statement: &'p Statement) -> Came
        ensures { Moves self.old (part_with self.old (statement_run statement.now) self.old.state) result self.new }
    {
        match &statement.kind {
            StatementKind::Expression(e) => self.placed(statement.line, Hand::Effect(e)),
            StatementKind::Block(all) => self.each(all, 0),
            StatementKind::Empty => self.on(),
            StatementKind::If { arms, otherwise } => self.arms(arms, 0, otherwise),
            StatementKind::Return(value) => self.begin_return(statement.line, value),
            StatementKind::Echo(operands) => self.placed(statement.line, Hand::Echo(operands, 0)),
            StatementKind::Break(n) => self.begin_signal(statement.line, Signal::Break(*n)),
            StatementKind::Continue(n) => self.begin_signal(statement.line, Signal::Continue(*n)),
            _ => self.begin_large(statement),
        }
    }

    /// The beginning of a `return` on this line.
    fn begin_return(&mut self, line: u32, value: &'p Option<Expression>) -> Came
        ensures { Moves self.old (At any_moment.Place line self.old.state
            (λ s. part_with self.old (return_run value.now) s)) result self.new }
    {
        match value {
            None => self.begin_signal(line, Signal::Return(Value::Null)),
            Some(e) => self.placed(line, Hand::Returning(e)),
        }
    }

    /// A signal, behind the moment of a statement on this line.
    fn begin_signal(&mut self, line: u32, signal: Signal) -> Came
        ensures { Moves self.old (At any_moment.Place line self.old.state
            (follows_of self.old (any_given.Signal signal))) result self.new }
    {
        self.placed(line, Hand::Give(Given::Signal(signal)))
    }

    /// The same of a statement whose beginning moves what is in hand.
    fn begin_large(&mut self, statement: &'p Statement) -> Came
        ensures { Moves self.old (part_with self.old (statement_run statement.now) self.old.state) result self.new }
    {
        self.keep(begin(self.alloc, self.bound, statement))
    }

    /// Statements from a position on, one after another. Nothing waits for the last of them.
    fn each(&mut self, all: &'p Items<Statement>, at: usize) -> Came
        ensures { Moves self.old (rest_with self.old (any_hand.Each all.entry at) self.old.state) result self.new }
    {
        match all.as_slice().get(at) {
            None => self.on(),
            Some(first) => {
                if at + 1 < all.as_slice().len() {
                    let rest = ForSignal::Rest(all, at + 1);
                    self.wait(Hand::Run(first), Work::ForSignal(rest))
                } else {
                    self.put(Hand::Run(first))
                }
            }
        }
    }

    /// The arms of an `if` from a position on, and what is done where no test holds.
    fn arms(
        &mut self,
        all: &'p Items<Arm>,
        at: usize,
        otherwise: &'p Option<Boxed<Statement>>,
    ) -> Came
        ensures { Moves self.old (rest_with self.old (any_hand.Arms all.entry at otherwise.entry) self.old.state) result
            self.new }
    {
        match all.as_slice().get(at) {
            None => self.without_arm(otherwise),
            Some(first) => self.placed(first.line, Hand::Choose(all, at, otherwise)),
        }
    }

    /// What an `if` does where no test holds.
    fn without_arm(&mut self, otherwise: &'p Option<Boxed<Statement>>) -> Came
        ensures { Moves self.old (part_with self.old (arms_part [] otherwise.now) self.old.state) result self.new }
    {
        match otherwise {
            None => self.on(),
            Some(statement) => self.put(Hand::Run(statement.as_ref())),
        }
    }

    /// The test of the arm at a position, whose moment has come.
    fn choose(
        &mut self,
        all: &'p Items<Arm>,
        at: usize,
        otherwise: &'p Option<Boxed<Statement>>,
    ) -> Came
        ensures { Moves self.old (rest_with self.old (any_hand.Choose all.entry at otherwise.entry) self.old.state)
            result self.new }
    {
        match all.as_slice().get(at) {
            None => self.on(),
            Some(first) => match test_holds(self.whole(), &first.test, &mut self.state) {
                Ok(Some(held)) => {
                    if held {
                        self.put(Hand::Run(&first.body))
                    } else {
                        self.arms(all, at + 1, otherwise)
                    }
                }
                Ok(None) => self.wait(
                    Hand::Evaluate(&first.test),
                    Work::AfterValue(AfterValue::Branch(all, at, otherwise)),
                ),
                Err(why) => halted(why),
            },
        }
    }

    /// The operands of an `echo` from a position on.
    fn echo(&mut self, all: &'p Items<Expression>, at: usize) -> Came
        ensures { Moves self.old (rest_with self.old (any_hand.Echo all.entry at) self.old.state) result self.new }
    {
        match all.as_slice().get(at) {
            None => self.on(),
            Some(first) => {
                if !is_momentless(first) {
                    return self.wait(
                        Hand::Evaluate(first),
                        Work::AfterValue(AfterValue::Echoed(all, at + 1)),
                    );
                }
                let value = self.whole().value(first, &mut self.state);
                match then_print(self.alloc, value, &mut self.state) {
                    Ok(()) => self.put(Hand::Echo(all, at + 1)),
                    Err(why) => halted(why),
                }
            }
        }
    }

    /// An expression as a statement, whose moment has come.
    fn effect(&mut self, e: &'p Expression) -> Came
        ensures { Moves self.old (rest_with self.old (any_hand.Effect e.entry) self.old.state) result self.new }
    {
        if !is_momentless(e) {
            return self.wait(Hand::Evaluate(e), Work::AfterValue(AfterValue::Discard));
        }
        match self.whole().effect(e, &mut self.state) {
            Ok(()) => self.on(),
            Err(why) => halted(why),
        }
    }

    /// The value of a `return`, whose moment has come.
    fn returning(&mut self, e: &'p Expression) -> Came
        ensures { Moves self.old (rest_with self.old (any_hand.Returning e.entry) self.old.state) result self.new }
    {
        if let Some(n) = integer(e, &self.state) {
            return self.take(Given::Signal(Signal::Return(Value::Int(n))));
        }
        if !is_momentless(e) {
            return self.wait(Hand::Evaluate(e), Work::AfterValue(AfterValue::ReturnIt));
        }
        match self.whole().value(e, &mut self.state) {
            Ok(value) => self.take(Given::Signal(Signal::Return(value))),
            Err(why) => halted(why),
        }
    }
}

/// Whether the signal to go on is in hand.
pub(crate) fn is_next(hand: &Hand<'_>) -> bool
    ensures { result ≡ true → hand.now ≡ any_hand.Give (any_given.Signal NextSignal) }
{
    match hand {
        Hand::Give(given) => is_next_given(given),
        _ => false,
    }
}

/// Whether that is given.
fn is_next_given(given: &Given) -> bool
    ensures { result ≡ true → given.now ≡ any_given.Signal NextSignal }
{
    match given {
        Given::Signal(signal) => matches!(signal, Signal::Next),
        _ => false,
    }
}
