// What the numbers of rows and places say, asked for by the names of the kinds.
ghost use Rattle.std.specs.Prelude.{◌≡◌, ◌==◌, nat_le};
ghost use Rattle.rules.specs.Kinds.{acts};
ghost use Rattle.kinds.specs.Functions.{number_of_function_type};
ghost use Rattle.kinds.specs.Roles.{number_of_role};
ghost use Rattle.kinds.specs.Values.{number_of_value_kind};

use super::rows::{HirFunction, Instruction, Place};
use kinds::{FunctionType, Role, ValueKind};

// Does a row of this kind act, so that it must stay even if nothing reads what it writes? One match over ranges of numbers, by a rule of the
// project.
pub fn is_acting(kind: u8) -> bool
    ensures { result ≡ acts kind }
{
    matches!(
        kind,
        2 | 4 | 6 | 11..=13 | 23 | 25..=26 | 28 | 30 | 32 | 34..=37 | 40..=42
    )
}

impl Place {
    pub fn has_role(&self, role: Role) -> bool
        ensures { result ≡ (self.now.role == number_of_role role) }
    {
        self.role == u8::from(role)
    }

    // Does its row read it, in whatever role?
    pub fn is_read(&self) -> bool
        ensures { result ≡ nat_le self.now.role 4 }
    {
        self.role <= u8::from(Role::Child)
    }

    pub fn is_written(&self) -> bool
        ensures { result ≡ (self.now.role == 5) }
    {
        self.has_role(Role::Written)
    }
}

impl Instruction {
    pub fn has_kind(&self, kind: ValueKind) -> bool
        ensures { result ≡ (self.now.kind == number_of_value_kind kind) }
    {
        self.kind == u8::from(kind)
    }
}

impl HirFunction {
    pub fn has_type(&self, fn_type: FunctionType) -> bool
        ensures { result ≡ (self.now.fn_type == number_of_function_type fn_type) }
    {
        self.fn_type == u8::from(fn_type)
    }
}
