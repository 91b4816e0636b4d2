//! What a group of nested JSX rows is gathered into: its props, the fresh places that they are bound to, and the rows of its call. Types
//! alone; specs/ says what they show.
#![tactic(auto)]

use hir::{IdentifierId, InstructionId, Name, Place};

// Where a prop comes from: an attribute of a member, by the name that it has there if it has one, or a child that is no member.
#[derive(Clone, Copy)]
pub enum Origin {
    Attribute(Option<Name>),
    Child,
}

// A prop of the group.
#[derive(Clone, Copy)]
pub struct OutlinedJsxAttribute {
    pub origin: Origin,
    pub new_name: Name,
    pub place: Place,
}

// What the ordered table has under an identifier: its new name, and the identifier of its latest fresh place.
#[derive(Clone, Copy)]
pub struct BoundProp {
    pub new_name: Name,
    pub fresh: IdentifierId,
}

// The two rows that are to stand in the place of a root, which is known by its result.
#[derive(Clone, Copy)]
pub struct Rewrite {
    pub root: IdentifierId,
    pub load: InstructionId,
    pub call: InstructionId,
}
