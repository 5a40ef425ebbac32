//! The frames of calls and of included files.

ghost use Rattle.std.specs.Prelude.{◌≡◌, is_some, Ok, IfErr, OnOk, OnErr};
ghost use Rattle.std.specs.List.{list_any};
ghost use Rattle.dp_state.specs.States.{IsCause, IsSure};
ghost use Rattle.dp_tree.specs.Files.{functions_of};
ghost use Rattle.dp_state.specs.Functions.{any_declared as has_declared, called, declared_function, included};
ghost use Rattle.dp_state.specs.Functions.{included_frame as frame_of_file};

use crate::moments::FatalKind;
use crate::state::{Fault, Frame, FrameKind, State};
use crate::steps::FRAME_LIMIT;
use crate::vars::Vars;
use dp_bytes::{Items, Memory};
use dp_tree::{Bundle, Function};
use dp_value::Value;
use std::alloc::Global;

impl State {
    /// Puts a frame on top for a call of this function of a file, on the function's line, with its parameters set.
    /// Values beyond the parameters are left out.
    ///
    /// `Arguments` comes exactly where there are fewer values than parameters, else `TooDeep` exactly where there would
    /// be more than [`FRAME_LIMIT`] frames, both also where there is no memory. After a refusal the state is as before.
    pub fn call(
        &mut self,
        file: u32,
        function: &Function,
        values: Items<Value>,
    ) -> Result<(), Fault>
        ensures ok { OnOk result (called file function.now values self.old ≡ Ok self.new) }
        ensures refused { IfErr result (IsCause (called file function.now values self.old)) }
        ensures sure { IsSure (called file function.now values self.old) result }
        ensures err { OnErr result (self.new ≡ self.old) }
    {
        if values.len() < function.parameters.len() {
            return Err(Fault::Fatal(FatalKind::Arguments));
        }
        if self.frames.len() >= FRAME_LIMIT {
            return Err(Fault::Fatal(FatalKind::TooDeep));
        }
        let alloc = self.allocator();
        self.frames.call(alloc, file, function, values)?;
        Ok(())
    }

    /// Puts a frame on top for this file of a bundle, on line 1, that shares the variables of the frame below it, and
    /// declares the functions of the file in order.
    ///
    /// `TooDeep` comes exactly where there would be more than [`FRAME_LIMIT`] frames, else `Redeclared` exactly where a
    /// function of the file has the name of one that is declared, in any case of letters, both also where there is no
    /// memory. After a refusal the state is as before.
    pub fn include(&mut self, bundle: &Bundle, file: u32) -> Result<(), Fault>
        ensures ok { OnOk result (included bundle.now file self.old ≡ Ok self.new) }
        ensures refused { IfErr result (IsCause (included bundle.now file self.old)) }
        ensures sure { IsSure (included bundle.now file self.old) result }
        ensures err { OnErr result (self.new ≡ self.old) }
    {
        if self.frames.len() >= FRAME_LIMIT {
            return Err(Fault::Fatal(FatalKind::TooDeep));
        }
        if self.any_declared(bundle, file) {
            return Err(Fault::Fatal(FatalKind::Redeclared));
        }
        let count = bundle.function_count(file)?;
        self.enter(included_frame(self.allocator(), file))?;
        match self.declared.add(file, count) {
            Ok(()) => Ok(()),
            Err(Memory) => {
                self.leave();
                Err(Fault::Memory)
            }
        }
    }

    /// Whether a function of this file has the name of one that is declared.
    fn any_declared(&self, bundle: &Bundle, file: u32) -> bool
        ensures { result ≡ has_declared bundle.now self.now.declared (functions_of bundle.now file) }
    {
        self.any_named(bundle, bundle.functions(file))
    }

    /// Whether one of these functions has the name of one that is declared.
    fn any_named(&self, bundle: &Bundle, functions: &[Function]) -> bool
        ensures { result ≡ list_any (λ f. is_some (declared_function bundle.now f.name self.now.declared))
            functions.now }
    {
        functions.iter().any(|function| self.function(bundle, function.name.as_slice()).is_some())
    }
}

/// The frame of an included file.
fn included_frame(alloc: Global, file: u32) -> Frame
    ensures { result ≡ frame_of_file file }
{
    Frame {
        kind: FrameKind::Included,
        file,
        line: 1,
        shares: true,
        vars: Vars::new(alloc),
    }
}
