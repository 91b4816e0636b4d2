//! Tags: the names of appended functions, which nothing else bears.
#![tactic(auto)]

mod known;
mod take;

pub use known::is_known;
pub use take::generate_globally_unique_identifier_name;
