use comma_lines::ReadError;
use quote::OutOfRange;
use screen_text::PrintError;
use std::alloc::AllocError;
use std::io;
use thiserror::Error;

// Why the program does not do what was asked.
#[derive(Debug, Drop, Error)]
pub enum Failure {
    #[error("no command is given: `wotsirma help` lists them")]
    NoCommand,
    #[error("there is no command `{0}`: `wotsirma help` lists them")]
    Command(String),
    #[error("usage: {0}")]
    Words(&'static str),
    #[error("{0} is not a whole number")]
    Number(&'static str),
    #[error("there is not enough memory")]
    Memory(#[from(alloc)] AllocError),
    #[error("standard input: {0}")]
    Input(io::Error),
    #[error("standard output: {0}")]
    Output(io::Error),
    #[error(transparent)]
    Read(#[from] ReadError),
    #[error("a table has more rows than can be counted")]
    TooLarge,
    #[error(transparent)]
    Print(#[from] PrintError),
    #[error("refusal {number}: {why}", number = .0.number(), why = .0)]
    Quote(#[from] OutOfRange),
}
