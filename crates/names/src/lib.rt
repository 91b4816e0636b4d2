//! Names: their bytes, compared and made. A made name goes to the end of the used text.
#![tactic(auto)]

mod compare;
mod digits;
mod made;

pub use compare::{is_key, name_bytes, same_name};
pub use digits::write_decimal;
pub use made::{append_numbered, append_text, promote, spell_renamed};
