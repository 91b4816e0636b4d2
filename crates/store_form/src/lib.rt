//! Refusals 1 to 3, as far as each row can be looked at by itself: used counts, the function asked for, and the form of every used row.
#![tactic(auto)]

mod blocks;
mod counts;
mod form;
mod instructions;
mod places;
mod rows;

pub use counts::{counts_fit, function_given, has_room};
pub use rows::rows_formed;
