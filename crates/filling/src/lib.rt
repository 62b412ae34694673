// Filling: a register is replaced by the pixels of strictly ascending codes, which are judged before a word is written.
#![tactic(auto)]

pub mod codes;
pub mod fill;
