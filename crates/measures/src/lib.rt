// The measures of 01's lent store: its sizes in words 0 to 3, the formula, and where its slots lie.
#![tactic(auto)]

pub mod lent;
pub mod sizes;
pub mod slots;
pub mod words;
