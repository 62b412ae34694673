// The image: its bytes, read as parts and written entry by entry; who is refused with 10 or 11.
#![tactic(auto)]

pub mod fit;
pub mod parts;
pub mod writing;
