// The indices of the first words of a store, which belong to no slot; words 1 to 3 are m, k and N.
pub const REGISTER_MARK: usize = 0;

pub const BLOCKS: usize = 6;

pub const FIRST_FREE: usize = 7;

// So many there are.
pub const HEAD_WORDS: usize = 8;
