ghost use Rattle.std.specs.Prelude.{◌≡◌, ℕ, ◌+◌, ◌-◌, ◌^◌, ◌<◌, ◌≤◌, Some};
ghost use Rattle.hir.specs.Tags.{with_tag_name, one_abandoned, one_appended};

use super::rows::{HirFunction, Name};

// A tag that was taken, and not yet spent. It has no Drop: it can only be put on a function or abandoned, and both are counted.
pub struct Tag {
    number: u32,
    name: Name,
}

// What outlining has done: functions appended, tags abandoned, properties bound.
#[derive(Clone, Copy)]
pub struct Report {
    pub functions: u32,
    pub abandoned: u32,
    pub properties: u32,
}

impl Tag {
    pub(super) fn new(number: u32, name: Name) -> Tag
        ensures { result ≡ record { number = number; name = name } }
    {
        Tag { number, name }
    }

    pub fn name(&self) -> Name
        ensures { result ≡ self.now.name }
    {
        self.name
    }

    // The function bears it.
    pub fn put_on(self, function: HirFunction, report: &mut Report) -> HirFunction
        requires { report.old.functions < 2 ^ 32 - 1 }
        ensures borne { result ≡ with_tag_name function self.name }
        ensures counted { report.new ≡ one_appended report.old }
    {
        let Tag { number: _, name } = self;
        report.functions += 1;
        HirFunction {
            tag: Some(name),
            ..function
        }
    }

    // No function bears it.
    pub fn abandon(self, report: &mut Report)
        requires { report.old.abandoned < 2 ^ 32 - 1 }
        ensures counted { report.new ≡ one_abandoned report.old }
    {
        let Tag { number: _, name: _ } = self;
        report.abandoned += 1;
    }
}
