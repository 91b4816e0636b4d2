// The laws of the rules that code and invoice lean on, each on the contract of a small decision that it is about. The statements stand
// in specs/.
#![tactic(auto)]

pub mod allowances;
pub mod limits;
pub mod names;
pub mod what_stays;
