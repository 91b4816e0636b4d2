use super::fault::Wrong;
use std::str::FromStr;

// The tables, in the order in which their lines stand.
#[derive(Clone, Copy, PartialEq, Eq, PartialOrd, Ord)]
pub enum Table {
    Identifiers,
    Places,
    Instructions,
    Numbers,
    Blocks,
    Functions,
}

// A table from the letter of its lines.
impl FromStr for Table {
    type Err = Wrong;

    fn from_str(letter: &str) -> Result<Table, Wrong> {
        match letter {
            "I" => Ok(Table::Identifiers),
            "P" => Ok(Table::Places),
            "R" => Ok(Table::Instructions),
            "L" => Ok(Table::Numbers),
            "B" => Ok(Table::Blocks),
            "F" => Ok(Table::Functions),
            _ => Err(Wrong::Letter),
        }
    }
}
