// What a search meets in one opened block: the nearest of its pixels, and the blocks in it, each with its distance.
#![tactic(auto)]

pub mod best;
pub mod blocks;
pub mod distance;
pub mod place;
