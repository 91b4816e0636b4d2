use std::io;
use thiserror::Error;

// Why a store has no text: there is no memory, or a number in it leads to a row that is not used.
#[derive(Clone, Copy, Debug, Error)]
pub enum PrintError {
    #[error("there is not enough memory")]
    Memory,
    #[error("function {0} is not used")]
    Function(u32),
    #[error("a block of function {0} is not used")]
    BlockOfFunction(u32),
    #[error("row {0} is not used")]
    Row(u32),
    #[error("identifier {0} is not used")]
    Identifier(u32),
    #[error("place {0} is not used")]
    Place(u32),
    #[error("list number {0} is not used")]
    ListNumber(u32),
    #[error("text byte {0} is not used")]
    TextByte(u32),
}

// Writing to memory fails only for want of memory. Written by hand, since `#[from]` would keep the error, which is not `Copy`.
impl From<io::Error> for PrintError {
    fn from(_: io::Error) -> PrintError {
        PrintError::Memory
    }
}
