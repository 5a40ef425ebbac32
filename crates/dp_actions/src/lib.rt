//! What is done once operands are evaluated: values, places, bindings and frames, and what they leave of a run.
#![tactic(auto)]

mod after;
mod answers;
mod bindings;
mod callees;
mod changes;
mod constants;
mod entries;
mod entry_reads;
mod faults;
mod frames;
mod halt;
mod indices;
mod integers;
mod items;
mod joins;
mod observed_expressions;
mod observed_indices;
mod observed_literals;
mod observed_operators;
mod observer;
mod operands;
mod places;
mod signal;
mod turns;

pub use after::{
    then_assign, then_binary, then_combine, then_exit, then_holds, then_missing, then_print,
    then_put_place, then_put_step, then_return, then_signal, then_step, then_truth, then_unary,
};
pub use answers::{builtin_value, exit_value, is_missing, print_value, value_of};
pub use bindings::{bind_all, bind_entry};
pub use callees::{Callee, look_up};
pub use changes::{combine, step_place};
pub use constants::{constant_value, define_constant, native_call, then_define};
pub use entries::{then_pushed, then_put};
pub use entry_reads::{Reading, entry_by, is_plain, look};
pub use faults::{fatal, fault, settled};
pub use frames::{enter_call, enter_file, file_named_by, not_included, returned, statements_of};
pub use halt::Halt;
pub use indices::{entry_at, then_entry};
pub use integers::{assign_integer, combined_integer, integer, step_variable, truth};
pub use items::{pushed, put};
pub use joins::operated;
pub use observer::observe;
pub use operands::{holds, kept, present, text_value, variable_value};
pub use places::{
    assign_place, assign_variable, found_place, given_keys, is_missing_place, key_at, read_place,
    unset_place, variable,
};
pub use signal::Signal;
pub use turns::{LoopStep, after_body, last_holds};
