//! Why a case isn't answered.

use std::alloc::{AllocError, AllocFailed};
use std::fmt;

/// Why a text is no case, or wasn't answered.
#[derive(Clone, Copy, Debug, PartialEq, Eq, Drop)]
pub enum CaseFault {
    /// A line has no known form.
    Line,
    /// Its head names no kind of case.
    NoKind,
    /// It names a text that no case before gave.
    NoText,
    /// A number isn't spelled as one, is out of its range, or is missing; or a text is too long.
    Number,
    /// A byte isn't spelled as one.
    Spelling,
    /// There was no memory.
    Memory,
}

impl fmt::Display for CaseFault {
    fn fmt<W: fmt::Write>(&self, f: &mut fmt::Formatter<W>) -> fmt::Result {
        match self {
            CaseFault::Line => write!(f, "a line of no known form"),
            CaseFault::NoKind => write!(f, "no kind of case"),
            CaseFault::NoText => write!(f, "no text of this name"),
            CaseFault::Number => write!(f, "no number, or one out of range"),
            CaseFault::Spelling => write!(f, "no spelling of bytes"),
            CaseFault::Memory => write!(f, "no memory"),
        }
    }
}

impl From<AllocError> for CaseFault {
    fn from(_error: AllocError) -> CaseFault {
        CaseFault::Memory
    }
}

impl<T: Drop> From<AllocFailed<T>> for CaseFault {
    fn from(_error: AllocFailed<T>) -> CaseFault {
        CaseFault::Memory
    }
}
