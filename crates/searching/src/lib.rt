// The nearest unfit pixel (02, P5) as definitions, and its laws. There is no code here: the crates above cite it.
#![tactic(auto)]
