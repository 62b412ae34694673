// 02, P5: the marked pixel nearest to a place, with a budget of blocks to open.
#![tactic(auto)]

pub mod answer;
