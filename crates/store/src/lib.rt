//! Writing a store: rows appended, a block given another list. Each call says what it writes byte for byte, what the store then says, and
//! that it is still well formed.
#![tactic(auto)]

mod append;
mod lists;

pub use append::{
    append_function, append_instruction, append_numbers, append_place, append_places,
    fresh_identifier,
};
pub use lists::{append_block, set_block_list};
