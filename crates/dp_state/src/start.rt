//! Where a program begins.

ghost use Rattle.std.specs.Prelude.{◌≡◌, IfOk};
ghost use Rattle.dp_state.specs.States.{first_frame, opening};

use crate::declarations::Declared;
use crate::state::{Frame, FrameKind, Frames, State};
use crate::vars::Vars;
use dp_bytes::{Bytes, Memory};
use dp_tree::Bundle;
use std::alloc::Global;

impl State {
    /// The state in which a program begins: the main frame alone, on line 1, no variables, no constants, the functions
    /// of the main file declared, nothing written, no moment.
    pub fn opening(alloc: Global, bundle: &Bundle) -> Result<State, Memory>
        ensures { IfOk result (λ state. state ≡ opening bundle.now) }
    {
        let mut declared = Declared::none(alloc);
        declared.add(0, bundle.function_count(0)?)?;
        Ok(State {
            frames: Frames::of(alloc, main_frame(alloc))?,
            globals: Vars::new(alloc),
            constants: Vars::new(alloc),
            declared,
            output: Bytes::of(Vec::new(alloc)),
            moments: 0,
        })
    }
}

/// The frame of the main file, on line 1.
fn main_frame(alloc: Global) -> Frame
    ensures { result ≡ first_frame }
{
    Frame {
        kind: FrameKind::Main,
        file: 0,
        line: 1,
        shares: false,
        vars: Vars::new(alloc),
    }
}
