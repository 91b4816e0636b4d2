ghost use Rattle.std.specs.Prelude.{◌≡◌};
ghost use Rattle.kinds.specs.Numbers.{FromNumber};
ghost use Rattle.kinds.specs.Roles.{number_of_effect, number_of_role};

use super::UnknownNumber;

// What a place is for: the roles up to `Child` are read.
#[derive(Clone, Copy, PartialEq, Eq, Debug)]
pub enum Role {
    Read = 0,
    Tag = 1,
    Attribute = 2,
    Spread = 3,
    Child = 4,
    Written = 5,
}

impl TryFrom<u8> for Role {
    type Error = UnknownNumber;

    ghost try_from_gives = { FromNumber number_of_role 0 5 };

    fn try_from(number: u8) -> Result<Role, UnknownNumber> {
        match number {
            0 => Ok(Role::Read),
            1 => Ok(Role::Tag),
            2 => Ok(Role::Attribute),
            3 => Ok(Role::Spread),
            4 => Ok(Role::Child),
            5 => Ok(Role::Written),
            _ => Err(UnknownNumber(number)),
        }
    }
}

impl From<Role> for u8 {
    ghost from_gives = { λ role n. n ≡ number_of_role role };

    fn from(role: Role) -> u8 {
        role as u8
    }
}

// What a use does to the value.
#[derive(Clone, Copy, PartialEq, Eq, Debug)]
pub enum Effect {
    Unknown = 0,
    Freeze = 1,
    Read = 2,
    Capture = 3,
    ConditionallyMutateIterator = 4,
    ConditionallyMutate = 5,
    Mutate = 6,
    Store = 7,
}

impl TryFrom<u8> for Effect {
    type Error = UnknownNumber;

    ghost try_from_gives = { FromNumber number_of_effect 0 7 };

    fn try_from(number: u8) -> Result<Effect, UnknownNumber> {
        match number {
            0 => Ok(Effect::Unknown),
            1 => Ok(Effect::Freeze),
            2 => Ok(Effect::Read),
            3 => Ok(Effect::Capture),
            4 => Ok(Effect::ConditionallyMutateIterator),
            5 => Ok(Effect::ConditionallyMutate),
            6 => Ok(Effect::Mutate),
            7 => Ok(Effect::Store),
            _ => Err(UnknownNumber(number)),
        }
    }
}

impl From<Effect> for u8 {
    ghost from_gives = { λ effect n. n ≡ number_of_effect effect };

    fn from(effect: Effect) -> u8 {
        effect as u8
    }
}
