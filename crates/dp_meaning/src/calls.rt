//! The evaluation of calls and includes.

#![tactic(auto, using(crate::proofs::Drives::evaluating))]

use crate::evaluator::Evaluator;
use crate::outside::Outside;
use dp_actions::{
    Callee, Halt, Signal, enter_call, enter_file, fatal, file_named_by, look_up, native_call,
    not_included, returned, statements_of,
};
use dp_bytes::{Bytes, Items};
use dp_state::{FatalKind, MomentKind, State};
use dp_tree::{Expression, Function, Inclusion, Native};
use dp_value::Value;

impl<O: Outside> Evaluator<'_, O> {
    ghost use Rattle.std.specs.Prelude.{◌+◌, ◌<◌, Some};
    ghost use Rattle.dp_actions.specs.Calls.{BuiltIn, call_run, callee as callee_named, include_run};
    ghost use Rattle.dp_meaning.specs.inner.Drive.{Evaluates};
    ghost use Rattle.dp_meaning.specs.inner.Evaluation.{goes_by};
    ghost use Rattle.dp_actions.specs.Expressions.{evaluations};
    ghost use Rattle.dp_meaning.specs.Programs.{file_run, function_run};
    ghost use Rattle.dp_actions.specs.Bodies.{leaving};
    ghost use Rattle.dp_meaning.specs.inner.Sizes.{body_size, frame_size};

    /// A call of what a name calls.
    #[cycle(evaluate)]
    pub(crate) fn named(
        &self,
        name: &Bytes,
        arguments: &[Expression],
        state: &mut State,
    ) -> Result<Value, Halt>
        ensures { Evaluates (O.rules self.now.outside.now) (call_run
            (callee_named self.now.bundle.now name.now state.old) (evaluations arguments.now)
            (goes_by self.now) state.old) result state.new }
    {
        match look_up(self.bundle, name, state) {
            None => Err(fatal(FatalKind::NoFunction, state)),
            Some(Callee::BuiltIn(function)) => self.call_builtin(function, arguments, state),
            Some(Callee::Declared { file, function }) => {
                let values = self.values(arguments, state)?;
                self.call(file, function, values, state)
            }
        }
    }

    /// A call of a built-in function. Its arguments are lent to it.
    #[cycle(evaluate)]
    fn call_builtin(
        &self,
        function: Native,
        arguments: &[Expression],
        state: &mut State,
    ) -> Result<Value, Halt>
        ensures { Evaluates (O.rules self.now.outside.now) (call_run (Some (BuiltIn function))
            (evaluations arguments.now) (goes_by self.now) state.old) result state.new }
    {
        let values = self.values(arguments, state)?;
        native_call(self.alloc, function, values.as_slice(), state)
    }

    /// A call of a function of a file.
    #[cycle(evaluate)]
    fn call(
        &self,
        file: u32,
        function: &Function,
        values: Items<Value>,
        state: &mut State,
    ) -> Result<Value, Halt>
        requires { body_size function.now.body + 1 < frame_size self.now.bundle.now }
        ensures { Evaluates (O.rules self.now.outside.now) ((goes_by self.now).call file function.now values
            state.old) result state.new }
    {
        if self.depth == 0 {
            return Err(fatal(FatalKind::TooDeep, state));
        }
        let below = Evaluator {
            bundle: self.bundle,
            outside: self.outside,
            alloc: self.alloc,
            bound: self.bound,
            depth: self.depth - 1,
        };
        below.function(file, function, values, state)
    }

    /// A call of a function of a file, where one frame more can be on the stack.
    #[cycle(evaluate)]
    fn function(
        &self,
        file: u32,
        function: &Function,
        values: Items<Value>,
        state: &mut State,
    ) -> Result<Value, Halt>
        ensures { Evaluates (O.rules self.now.outside.now) (function_run file function.now values
            (goes_by self.now) state.old) result state.new }
    {
        enter_call(file, function, values, state)?;
        self.outside
            .at_moment(MomentKind::Enter, function.line, state)?;
        let signal = self.body(function.body.as_slice(), state)?;
        self.leave(signal, state)
    }

    /// The end of a call whose body is done.
    fn leave(&self, signal: Signal, state: &mut State) -> Result<Value, Halt>
        ensures { Evaluates (O.rules self.now.outside.now) (leaving signal state.old) result state.new }
    {
        let line = state.line();
        match self.outside.at_moment(MomentKind::Leave, line, state) {
            Ok(()) => {
                state.leave();
                Ok(returned(Value::Null, signal))
            }
            Err(halt) => {
                drop(signal);
                Err(halt)
            }
        }
    }

    /// `include` or `require` of the file whose name is the text of a value.
    #[cycle(evaluate)]
    pub(crate) fn include(
        &self,
        how: Inclusion,
        name: &Value,
        state: &mut State,
    ) -> Result<Value, Halt>
        ensures { Evaluates (O.rules self.now.outside.now) (include_run how name.now (goes_by self.now) state.old)
            result state.new }
    {
        match file_named_by(self.alloc, self.bundle, name)? {
            None => not_included(how, state),
            Some(file) => self.file(file, state),
        }
    }

    /// The run of the file of this number.
    #[cycle(evaluate)]
    fn file(&self, file: u32, state: &mut State) -> Result<Value, Halt>
        ensures { Evaluates (O.rules self.now.outside.now) ((goes_by self.now).include file state.old) result
            state.new }
    {
        if self.depth == 0 {
            return Err(fatal(FatalKind::TooDeep, state));
        }
        let below = Evaluator {
            bundle: self.bundle,
            outside: self.outside,
            alloc: self.alloc,
            bound: self.bound,
            depth: self.depth - 1,
        };
        below.included(file, state)
    }

    /// The run of the file of this number, where one frame more can be on the stack.
    #[cycle(evaluate)]
    fn included(&self, file: u32, state: &mut State) -> Result<Value, Halt>
        ensures { Evaluates (O.rules self.now.outside.now) (file_run file (goes_by self.now) state.old) result
            state.new }
    {
        enter_file(self.bundle, file, state)?;
        let signal = self.body(statements_of(self.bundle, file), state)?;
        state.leave();
        Ok(returned(Value::Int(1), signal))
    }
}
