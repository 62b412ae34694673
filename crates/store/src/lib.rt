// The lent store of 01: what its words say, and a block opened.
#![tactic(auto)]

pub mod opening;

// The words cannot be a register's.
#[derive(Clone, Copy, Debug, PartialEq, Eq)]
pub struct Damaged;
