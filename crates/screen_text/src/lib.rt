//! A store as text: the canonical dump, which two builds can be compared by, and a form for people.
#![tactic(auto)]

mod dumping;
mod named;
mod print_error;
mod printer;
mod showing;

pub use dumping::dump;
pub use print_error::PrintError;
pub use showing::show;
