//! The tables of a screen: the rows as plain data, the store that holds them in lent memory, and what it says (specs/View.antt).
#![tactic(auto)]

mod counts;
mod formed;
mod keys;
mod numbers;
mod reading;
mod rows;
mod tag;
mod writing;

pub use counts::LIMITS;
pub use formed::FormedStore;
pub use keys::spelling;
pub use numbers::is_acting;
pub use reading::{used_row, used_run};
pub use rows::{
    BasicBlock, BlockId, Counts, FunctionId, HirFunction, Identifier, IdentifierId, IdentifierName,
    Instruction, InstructionId, Name, Place, Run, Store,
};
pub use tag::{Report, Tag};
pub use writing::write_rows;
