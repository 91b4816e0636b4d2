//! The kinds that the tables name by a number, with the names that people know them by. Each enum has its impls written out, since a macro
//! of the repository's own may write none.
#![tactic(auto)]

ghost use Rattle.std.specs.Prelude.{◌++◌, codes, decimal, Some};

mod blocks;
mod functions;
mod roles;
mod values;

pub use blocks::{BlockKind, ReturnVariant, Terminal};
pub use functions::{FunctionType, InstructionKind, OBJECT_PATTERN};
pub use roles::{Effect, Role};
use std::error::Error;
use std::fmt;
pub use values::ValueKind;

// A number that names no kind of the table it stands in.
#[derive(Clone, Copy, PartialEq, Eq, Debug)]
pub struct UnknownNumber(pub u8);

// By hand, so that a clause can say what it prints.
impl fmt::Display for UnknownNumber {
    ghost output = { λ e. Some (codes "no kind has the number " ++ decimal e.0) };

    fn fmt<W: fmt::Write>(&self, f: &mut fmt::Formatter<W>) -> fmt::Result {
        write!(f, "no kind has the number {}", self.0)
    }
}

impl Error for UnknownNumber {}
