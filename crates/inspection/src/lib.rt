// What check looks at piece by piece: the elements of a block in passing, and the chain of free slots.
#![tactic(auto)]

pub mod chain;
pub mod pass;
