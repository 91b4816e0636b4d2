//! Screens from comma lines: one line for each row of a table, its fields parted by commas.
#![tactic(auto)]

mod fault;
mod fields;
mod lines;
mod table;

pub use fault::{Fault, ReadError, Wrong};
pub use lines::read;
