// Loading: a register is replaced by the set of an image, which is judged whole before a word is written.
#![tactic(auto)]

pub mod fill;
pub mod load;
