// The plain set program: the marked pixels of a panel of order 4 at most, an array by code, and all else worked out from it by 01's definitions.
#![tactic(auto)]

pub mod blocks;
pub mod calls;
pub mod codes;
pub mod images;
pub mod search;
pub mod window;
