//! Why operations on values are refused.

ghost use Rattle.std.specs.Prelude.{◌≡◌};
ghost use Rattle.dp_value.specs.declared.errors.ValueError.TheVariants.{Memory as NoMemoryForValue};
ghost use Rattle.dp_value.specs.declared.errors.CallError.TheVariants.{Memory as NoMemoryForCall};
ghost use Rattle.dp_value.specs.declared.errors.WriteError.TheVariants.{Memory as NoMemoryForWrite};

use std::alloc::{AllocError, AllocFailed};
use thiserror::Error;

/// Why an operation on values was refused.
#[derive(Clone, Copy, Debug, PartialEq, Eq, Error)]
pub enum ValueError {
    /// An integer result does not fit 64 bits.
    #[error("integer overflow")]
    Overflow,
    /// A division by zero.
    #[error("division by zero")]
    DivByZero,
    /// An array cannot be a key.
    #[error("an array is no key")]
    BadKey,
    /// The largest integer key was used, so no next one is left.
    #[error("no next key is left")]
    NextIndex,
    /// The operation is not defined for these types.
    #[error("unsupported operand types")]
    Unsupported,
    /// The result would pass the weight limit.
    #[error("value too heavy")]
    TooHeavy,
    /// Out of memory.
    #[error("out of memory")]
    Memory,
}

/// Why a call of a built-in function was refused.
#[derive(Clone, Copy, Debug, PartialEq, Eq, Error)]
pub enum CallError {
    /// An integer result does not fit 64 bits.
    #[error("integer overflow")]
    Overflow,
    /// A division by zero.
    #[error("division by zero")]
    DivByZero,
    /// An array cannot be a key.
    #[error("an array is no key")]
    BadKey,
    /// The largest integer key was used, so no next one is left.
    #[error("no next key is left")]
    NextIndex,
    /// The function is not defined for these types.
    #[error("unsupported argument types")]
    Unsupported,
    /// The result would pass the weight limit.
    #[error("value too heavy")]
    TooHeavy,
    /// Out of memory.
    #[error("out of memory")]
    Memory,
    /// The number of arguments is wrong, or an argument is out of its range.
    #[error("bad arguments")]
    Arguments,
}

/// Why a write of an entry was refused.
#[derive(Clone, Copy, Debug, PartialEq, Eq, Error)]
pub enum WriteError {
    /// A value on the way is `true` or an integer, which holds no entries.
    #[error("a scalar holds no entries")]
    Scalar,
    /// A value on the way is a text, whose bytes cannot be written.
    #[error("bytes of a text cannot be written")]
    Unsupported,
    /// An array cannot be a key.
    #[error("an array is no key")]
    BadKey,
    /// The largest integer key was used, so no next one is left.
    #[error("no next key is left")]
    NextIndex,
    /// An array on the way would pass the weight limit.
    #[error("value too heavy")]
    TooHeavy,
    /// Out of memory.
    #[error("out of memory")]
    Memory,
}

impl From<AllocError> for ValueError {
    ghost from_gives = { λ _ e. e ≡ NoMemoryForValue };

    fn from(_error: AllocError) -> ValueError {
        ValueError::Memory
    }
}

impl<T: Drop> From<AllocFailed<T>> for ValueError {
    ghost from_gives = { λ _ e. e ≡ NoMemoryForValue };

    fn from(_error: AllocFailed<T>) -> ValueError {
        ValueError::Memory
    }
}

impl From<AllocError> for CallError {
    ghost from_gives = { λ _ e. e ≡ NoMemoryForCall };

    fn from(_error: AllocError) -> CallError {
        CallError::Memory
    }
}

impl<T: Drop> From<AllocFailed<T>> for CallError {
    ghost from_gives = { λ _ e. e ≡ NoMemoryForCall };

    fn from(_error: AllocFailed<T>) -> CallError {
        CallError::Memory
    }
}

impl From<AllocError> for WriteError {
    ghost from_gives = { λ _ e. e ≡ NoMemoryForWrite };

    fn from(_error: AllocError) -> WriteError {
        WriteError::Memory
    }
}

impl<T: Drop> From<AllocFailed<T>> for WriteError {
    ghost from_gives = { λ _ e. e ≡ NoMemoryForWrite };

    fn from(_error: AllocFailed<T>) -> WriteError {
        WriteError::Memory
    }
}
