ghost use Rattle.std.specs.Prelude.{◌≡◌, Some};
ghost use Rattle.kinds.specs.Numbers.{FromNumber};
ghost use Rattle.kinds.specs.Functions.{name_of_function_type, name_of_instruction_kind, number_of_function_type, number_of_instruction_kind};

use super::UnknownNumber;
use std::fmt;

// Whose function it is: a Component is never outlined.
#[derive(Clone, Copy, PartialEq, Eq, Debug)]
pub enum FunctionType {
    Component = 0,
    Hook = 1,
    Other = 2,
}

impl TryFrom<u8> for FunctionType {
    type Error = UnknownNumber;

    ghost try_from_gives = { FromNumber number_of_function_type 0 2 };

    fn try_from(number: u8) -> Result<FunctionType, UnknownNumber> {
        match number {
            0 => Ok(FunctionType::Component),
            1 => Ok(FunctionType::Hook),
            2 => Ok(FunctionType::Other),
            _ => Err(UnknownNumber(number)),
        }
    }
}

impl From<FunctionType> for u8 {
    ghost from_gives = { λ kind n. n ≡ number_of_function_type kind };

    fn from(kind: FunctionType) -> u8 {
        kind as u8
    }
}

impl fmt::Display for FunctionType {
    ghost output = { λ kind. Some (name_of_function_type kind) };

    fn fmt<W: fmt::Write>(&self, f: &mut fmt::Formatter<W>) -> fmt::Result {
        f.write_str(match self {
            FunctionType::Component => "Component",
            FunctionType::Hook => "Hook",
            FunctionType::Other => "Other",
        })
    }
}

// What a Destructure of an object pattern adds, in its detail, to the number of its `InstructionKind`.
pub const OBJECT_PATTERN: u64 = 8;

// How a variable is bound.
#[derive(Clone, Copy, PartialEq, Eq, Debug)]
pub enum InstructionKind {
    Const = 0,
    Let = 1,
    Reassign = 2,
    Catch = 3,
    HoistedConst = 4,
    HoistedLet = 5,
    HoistedFunction = 6,
    Function = 7,
}

impl TryFrom<u8> for InstructionKind {
    type Error = UnknownNumber;

    ghost try_from_gives = { FromNumber number_of_instruction_kind 0 7 };

    fn try_from(number: u8) -> Result<InstructionKind, UnknownNumber> {
        match number {
            0 => Ok(InstructionKind::Const),
            1 => Ok(InstructionKind::Let),
            2 => Ok(InstructionKind::Reassign),
            3 => Ok(InstructionKind::Catch),
            4 => Ok(InstructionKind::HoistedConst),
            5 => Ok(InstructionKind::HoistedLet),
            6 => Ok(InstructionKind::HoistedFunction),
            7 => Ok(InstructionKind::Function),
            _ => Err(UnknownNumber(number)),
        }
    }
}

impl From<InstructionKind> for u8 {
    ghost from_gives = { λ kind n. n ≡ number_of_instruction_kind kind };

    fn from(kind: InstructionKind) -> u8 {
        kind as u8
    }
}

impl fmt::Display for InstructionKind {
    ghost output = { λ kind. Some (name_of_instruction_kind kind) };

    fn fmt<W: fmt::Write>(&self, f: &mut fmt::Formatter<W>) -> fmt::Result {
        f.write_str(match self {
            InstructionKind::Const => "Const",
            InstructionKind::Let => "Let",
            InstructionKind::Reassign => "Reassign",
            InstructionKind::Catch => "Catch",
            InstructionKind::HoistedConst => "HoistedConst",
            InstructionKind::HoistedLet => "HoistedLet",
            InstructionKind::HoistedFunction => "HoistedFunction",
            InstructionKind::Function => "Function",
        })
    }
}
