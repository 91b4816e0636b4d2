ghost use Rattle.std.specs.Prelude.{◌≡◌, Some};
ghost use Rattle.kinds.specs.Numbers.{FromNumber};
ghost use Rattle.kinds.specs.Blocks.{name_of_block_kind, name_of_return_variant, name_of_terminal, number_of_block_kind, number_of_return_variant, number_of_terminal};

use super::UnknownNumber;
use std::fmt;

// What a block belongs to.
#[derive(Clone, Copy, PartialEq, Eq, Debug)]
pub enum BlockKind {
    Block = 0,
    Value = 1,
    Loop = 2,
    Sequence = 3,
    Catch = 4,
}

impl TryFrom<u8> for BlockKind {
    type Error = UnknownNumber;

    ghost try_from_gives = { FromNumber number_of_block_kind 0 4 };

    fn try_from(number: u8) -> Result<BlockKind, UnknownNumber> {
        match number {
            0 => Ok(BlockKind::Block),
            1 => Ok(BlockKind::Value),
            2 => Ok(BlockKind::Loop),
            3 => Ok(BlockKind::Sequence),
            4 => Ok(BlockKind::Catch),
            _ => Err(UnknownNumber(number)),
        }
    }
}

impl From<BlockKind> for u8 {
    ghost from_gives = { λ kind n. n ≡ number_of_block_kind kind };

    fn from(kind: BlockKind) -> u8 {
        kind as u8
    }
}

impl fmt::Display for BlockKind {
    ghost output = { λ kind. Some (name_of_block_kind kind) };

    fn fmt<W: fmt::Write>(&self, f: &mut fmt::Formatter<W>) -> fmt::Result {
        f.write_str(match self {
            BlockKind::Block => "block",
            BlockKind::Value => "value",
            BlockKind::Loop => "loop",
            BlockKind::Sequence => "sequence",
            BlockKind::Catch => "catch",
        })
    }
}

// How a block ends, counted from 1.
#[derive(Clone, Copy, PartialEq, Eq, Debug)]
pub enum Terminal {
    Unreachable = 1,
    Throw = 2,
    Return = 3,
    Goto = 4,
    If = 5,
    Branch = 6,
    Switch = 7,
    DoWhile = 8,
    While = 9,
    For = 10,
    ForOf = 11,
    ForIn = 12,
    Logical = 13,
    Ternary = 14,
    Optional = 15,
    Label = 16,
    Sequence = 17,
    MaybeThrow = 18,
    Try = 19,
    Scope = 20,
    PrunedScope = 21,
}

impl TryFrom<u8> for Terminal {
    type Error = UnknownNumber;

    ghost try_from_gives = { FromNumber number_of_terminal 1 21 };

    fn try_from(number: u8) -> Result<Terminal, UnknownNumber> {
        match number {
            1 => Ok(Terminal::Unreachable),
            2 => Ok(Terminal::Throw),
            3 => Ok(Terminal::Return),
            4 => Ok(Terminal::Goto),
            5 => Ok(Terminal::If),
            6 => Ok(Terminal::Branch),
            7 => Ok(Terminal::Switch),
            8 => Ok(Terminal::DoWhile),
            9 => Ok(Terminal::While),
            10 => Ok(Terminal::For),
            11 => Ok(Terminal::ForOf),
            12 => Ok(Terminal::ForIn),
            13 => Ok(Terminal::Logical),
            14 => Ok(Terminal::Ternary),
            15 => Ok(Terminal::Optional),
            16 => Ok(Terminal::Label),
            17 => Ok(Terminal::Sequence),
            18 => Ok(Terminal::MaybeThrow),
            19 => Ok(Terminal::Try),
            20 => Ok(Terminal::Scope),
            21 => Ok(Terminal::PrunedScope),
            _ => Err(UnknownNumber(number)),
        }
    }
}

impl From<Terminal> for u8 {
    ghost from_gives = { λ terminal n. n ≡ number_of_terminal terminal };

    fn from(terminal: Terminal) -> u8 {
        terminal as u8
    }
}

impl fmt::Display for Terminal {
    ghost output = { λ terminal. Some (name_of_terminal terminal) };

    fn fmt<W: fmt::Write>(&self, f: &mut fmt::Formatter<W>) -> fmt::Result {
        f.write_str(match self {
            Terminal::Unreachable => "Unreachable",
            Terminal::Throw => "Throw",
            Terminal::Return => "Return",
            Terminal::Goto => "Goto",
            Terminal::If => "If",
            Terminal::Branch => "Branch",
            Terminal::Switch => "Switch",
            Terminal::DoWhile => "DoWhile",
            Terminal::While => "While",
            Terminal::For => "For",
            Terminal::ForOf => "ForOf",
            Terminal::ForIn => "ForIn",
            Terminal::Logical => "Logical",
            Terminal::Ternary => "Ternary",
            Terminal::Optional => "Optional",
            Terminal::Label => "Label",
            Terminal::Sequence => "Sequence",
            Terminal::MaybeThrow => "MaybeThrow",
            Terminal::Try => "Try",
            Terminal::Scope => "Scope",
            Terminal::PrunedScope => "PrunedScope",
        })
    }
}

// How a Return came about.
#[derive(Clone, Copy, PartialEq, Eq, Debug)]
pub enum ReturnVariant {
    Void = 0,
    Implicit = 1,
    Explicit = 2,
}

impl TryFrom<u8> for ReturnVariant {
    type Error = UnknownNumber;

    ghost try_from_gives = { FromNumber number_of_return_variant 0 2 };

    fn try_from(number: u8) -> Result<ReturnVariant, UnknownNumber> {
        match number {
            0 => Ok(ReturnVariant::Void),
            1 => Ok(ReturnVariant::Implicit),
            2 => Ok(ReturnVariant::Explicit),
            _ => Err(UnknownNumber(number)),
        }
    }
}

impl From<ReturnVariant> for u8 {
    ghost from_gives = { λ variant n. n ≡ number_of_return_variant variant };

    fn from(variant: ReturnVariant) -> u8 {
        variant as u8
    }
}

impl fmt::Display for ReturnVariant {
    ghost output = { λ variant. Some (name_of_return_variant variant) };

    fn fmt<W: fmt::Write>(&self, f: &mut fmt::Formatter<W>) -> fmt::Result {
        f.write_str(match self {
            ReturnVariant::Void => "Void",
            ReturnVariant::Implicit => "Implicit",
            ReturnVariant::Explicit => "Explicit",
        })
    }
}
