//! Refusal 6: a function writes no identifier twice, and no row but a phi reads what its block writes at or after it.
#![tactic(auto)]

mod places;
mod rows;
mod turn;

pub use rows::function_sound;
