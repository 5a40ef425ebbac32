//! The faults that refusals are.

ghost use Rattle.std.specs.Prelude.{◌≡◌};

use crate::moments::FatalKind;
use crate::state::Fault;
use dp_bytes::Memory;
use dp_value::{CallError, ValueError, WriteError};
use std::alloc::AllocFailed;

impl From<Memory> for Fault {
    ghost use Rattle.dp_state.specs.declared.state.Fault.TheVariants as fault;

    ghost from_gives = { λ _ e. e ≡ fault.Memory };

    fn from(_refused: Memory) -> Fault {
        Fault::Memory
    }
}

impl<T: Drop> From<AllocFailed<T>> for Fault {
    ghost use Rattle.dp_state.specs.declared.state.Fault.TheVariants as fault;

    ghost from_gives = { λ _ e. e ≡ fault.Memory };

    fn from(_refused: AllocFailed<T>) -> Fault {
        Fault::Memory
    }
}

impl From<ValueError> for Fault {
    ghost use Rattle.dp_state.specs.Faults.{fault_of_value};

    ghost from_gives = { λ why e. e ≡ fault_of_value why };

    fn from(why: ValueError) -> Fault {
        match why {
            ValueError::Overflow => Fault::Fatal(FatalKind::Overflow),
            ValueError::DivByZero => Fault::Fatal(FatalKind::DivByZero),
            ValueError::BadKey => Fault::Fatal(FatalKind::BadKey),
            ValueError::NextIndex => Fault::Fatal(FatalKind::NextIndex),
            ValueError::Unsupported => Fault::Fatal(FatalKind::Unsupported),
            ValueError::TooHeavy => Fault::Fatal(FatalKind::TooHeavy),
            ValueError::Memory => Fault::Memory,
        }
    }
}

impl From<CallError> for Fault {
    ghost use Rattle.dp_state.specs.Faults.{fault_of_call};

    ghost from_gives = { λ why e. e ≡ fault_of_call why };

    fn from(why: CallError) -> Fault {
        match why {
            CallError::Overflow => Fault::Fatal(FatalKind::Overflow),
            CallError::DivByZero => Fault::Fatal(FatalKind::DivByZero),
            CallError::BadKey => Fault::Fatal(FatalKind::BadKey),
            CallError::NextIndex => Fault::Fatal(FatalKind::NextIndex),
            CallError::Unsupported => Fault::Fatal(FatalKind::Unsupported),
            CallError::TooHeavy => Fault::Fatal(FatalKind::TooHeavy),
            CallError::Arguments => Fault::Fatal(FatalKind::Arguments),
            CallError::Memory => Fault::Memory,
        }
    }
}

impl From<WriteError> for Fault {
    ghost use Rattle.dp_state.specs.Faults.{fault_of_write};

    ghost from_gives = { λ why e. e ≡ fault_of_write why };

    fn from(why: WriteError) -> Fault {
        match why {
            WriteError::Scalar => Fault::Fatal(FatalKind::Scalar),
            WriteError::Unsupported => Fault::Fatal(FatalKind::Unsupported),
            WriteError::BadKey => Fault::Fatal(FatalKind::BadKey),
            WriteError::NextIndex => Fault::Fatal(FatalKind::NextIndex),
            WriteError::TooHeavy => Fault::Fatal(FatalKind::TooHeavy),
            WriteError::Memory => Fault::Memory,
        }
    }
}
