// The specification of 01 as definitions, and its laws. There is no code here: the crates above cite it.
#![tactic(auto)]
