//! Sweep: of the rows of a function, what acts stays, and what is needed for it or for a terminal; the rest goes.
#![tactic(auto)]

mod kept;
mod mark;
mod sweep_rows;
mod thin_lists;
mod wipe;

pub use sweep_rows::Sweep;
