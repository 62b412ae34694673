// Looking: walks over the blocks of a store that only read it. A walk opens no block that it need not, counts those that it opens,
// and stops as soon as the words cannot be those of a sound store.
#![tactic(auto)]

pub mod count;
pub mod range;
pub mod walk;
