// The rows of the seven tables. Roles, kinds and the like are the numbers that the host wrote, by a rule of the project, and no enums: a
// number out of its range is refused by the check of the store, not here. docs/RULES.md has the ranges and what each number means.
ghost use Rattle.std.specs.Prelude.{◌≡◌};
ghost use Rattle.hir.specs.Given.{given_name};

// A name is a stretch of the text table, and no `String`: the pass has no heap.
#[derive(Clone, Copy)]
pub struct Name {
    pub start: u32,
    pub len: u32,
}

// The four sorts of numbers. Each is a type of its own, so that none can stand for another.

#[derive(Clone, Copy, PartialEq, Eq)]
pub struct IdentifierId(pub u32);

#[derive(Clone, Copy, PartialEq, Eq)]
pub struct InstructionId(pub u32);

#[derive(Clone, Copy, PartialEq, Eq)]
pub struct BlockId(pub u32);

#[derive(Clone, Copy, PartialEq, Eq)]
pub struct FunctionId(pub u32);

// Consecutive rows of one table.
#[derive(Clone, Copy)]
pub struct Run {
    pub first: u32,
    pub count: u32,
}

// A name that an identifier has from the start, or was promoted to.
#[derive(Clone, Copy)]
pub enum IdentifierName {
    Named(Name),
    Promoted(Name),
}

#[derive(Clone, Copy)]
pub struct Identifier {
    pub declaration: u32,
    pub name: Option<IdentifierName>,
}

impl Identifier {
    // What it is called, where it has a name of either sort.
    pub fn given_name(&self) -> Option<Name>
        ensures { result ≡ given_name self.now }
    {
        match self.name? {
            IdentifierName::Named(name) | IdentifierName::Promoted(name) => Some(name),
        }
    }
}

// One read or write of an identifier; the role says which.
#[derive(Clone, Copy)]
pub struct Place {
    pub role: u8,
    pub name: Option<Name>,
    pub identifier: IdentifierId,
    pub effect: u8,
    pub reactive: bool,
    pub span: u32,
}

// A row of a block. `order` is the order of evaluation; `places` is a run of the place table.
#[derive(Clone, Copy)]
pub struct Instruction {
    pub order: u32,
    pub kind: u8,
    pub result: Place,
    pub name: Option<Name>,
    pub detail: u64,
    pub function: FunctionId,
    pub places: Run,
    pub span: u32,
    pub opening: u32,
    pub closing: u32,
    pub effects: u32,
}

// `instructions` and `preds` are runs of the list table: numbers of instructions, and numbers of blocks.
#[derive(Clone, Copy)]
pub struct BasicBlock {
    pub kind: u8,
    pub terminal: u8,
    pub detail: u32,
    pub places: Run,
    pub instructions: Run,
    pub preds: Run,
}

// `appended` is set on the functions that outlining has added.
#[derive(Clone, Copy)]
pub struct HirFunction {
    pub fn_type: u8,
    pub blocks: Run,
    pub params: Run,
    pub context: Run,
    pub returns: Place,
    pub tag: Option<Name>,
    pub appended: bool,
}

// How many rows of each table are used, how many tags were taken, and the number of the latest.
#[derive(Clone, Copy, Default)]
pub struct Counts {
    pub text: u32,
    pub identifiers: u32,
    pub places: u32,
    pub instructions: u32,
    pub numbers: u32,
    pub blocks: u32,
    pub functions: u32,
    pub tag_counter: u32,
    pub tag_mark: u32,
}

// The host's seven tables, lent for a call. Rows from a used count on are spare. Slices and counts, and no `Vec`: the memory is the host's.
#[derive(Default, Drop)]
pub struct Store<'a> {
    pub counts: Counts,
    pub text: &'a mut [u8],
    pub identifiers: &'a mut [Identifier],
    pub places: &'a mut [Place],
    pub instructions: &'a mut [Instruction],
    pub numbers: &'a mut [u32],
    pub blocks: &'a mut [BasicBlock],
    pub functions: &'a mut [HirFunction],
}
