use std::alloc::AllocError;
use thiserror::Error;

// What is wrong with a line.
#[derive(Clone, Copy, Debug, Error)]
pub enum Wrong {
    #[error("does not begin with one of the letters I, P, R, L, B, F")]
    Letter,
    #[error("stands too late: the order of the lines is I, P, R, L, B, F")]
    Order,
    #[error("ends before {0}")]
    Missing(&'static str),
    #[error("has more fields than it should")]
    Extra,
    #[error("{field} is not a number from {min} to {max}")]
    Number {
        field: &'static str,
        min: u64,
        max: u64,
    },
    #[error("{0} is empty")]
    NameExpected(&'static str),
    #[error("{0} is given, but its kind is 0")]
    NameUnexpected(&'static str),
    #[error("the names are too long together")]
    TooMuchText(&'static str),
}

// The first thing wrong with a text, and on which line.
#[derive(Clone, Copy, Debug, Error)]
#[error("line {line}: {wrong}")]
pub struct Fault {
    pub line: usize,
    pub wrong: Wrong,
}

// Why a text is not read.
#[derive(Clone, Copy, Debug, Error)]
pub enum ReadError {
    #[error("there is not enough memory")]
    Memory(#[from(alloc)] AllocError),
    #[error(transparent)]
    Line(#[from] Fault),
}
