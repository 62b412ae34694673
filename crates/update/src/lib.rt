// Changing: mark and clear, one engine for both. A change is made in the smallest block that holds the pixel and goes up the path.
#![tactic(auto)]

pub mod marks;
