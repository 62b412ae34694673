// Closed clients of the register: each public function has no requires, calls the public calls, and ensures what their contracts alone give.
#![tactic(auto)]

pub mod any_words;
pub mod panel;
pub mod spoilt;
