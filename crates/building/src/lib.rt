// Building: a register from strictly ascending codes, from the bottom up. Once all are appended, the root takes what is left on the stack.
#![tactic(auto)]

pub mod codes;
pub mod finish;
