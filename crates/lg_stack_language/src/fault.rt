// Why a text is not compiled.

use lg_base::OutOfMemory;
use std::alloc::AllocFailed;
use thiserror::Error;

/// What is wrong with a word.
#[derive(Clone, Copy, Debug, PartialEq, Eq, Error)]
pub enum CompileError {
    /// It is no word of the language, no number up to 2^64 - 1, and no name of a local or of a function that is before it.
    #[error("unknown word")]
    UnknownWord,
    /// It takes more values than there are.
    #[error("a value is missing")]
    ValueMissing,
    /// More than 32 values would wait at once.
    #[error("too many values")]
    TooManyValues,
    /// Values wait where a block begins, turns or ends.
    #[error("values are left")]
    ValuesLeft,
    /// It ends or turns a block that is not open, or is outside of functions, or defines one within another.
    #[error("out of place")]
    OutOfPlace,
    /// The text ends within a function.
    #[error("not ended")]
    NotEnded,
    /// The function was defined before, or is called with another number of arguments.
    #[error("defined otherwise")]
    DefinedOtherwise,
    /// The locals of the function would take more than 65,536 bytes.
    #[error("too many locals")]
    TooManyLocals,
    /// Memory could not be had.
    #[error("out of memory")]
    OutOfMemory,
}

/// An error with the line of the word, from 1.
#[derive(Clone, Copy, Debug, PartialEq, Eq)]
pub struct Fault {
    /// The line.
    pub line: u32,
    /// What is wrong there.
    pub error: CompileError,
}

impl From<OutOfMemory> for CompileError {
    fn from(_error: OutOfMemory) -> CompileError {
        CompileError::OutOfMemory
    }
}

impl<T: Drop> From<AllocFailed<T>> for CompileError {
    fn from(_error: AllocFailed<T>) -> CompileError {
        CompileError::OutOfMemory
    }
}
