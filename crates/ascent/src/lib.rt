// Laws only, with what they speak of: a change on its way up from the block where a pixel came or went. What is pending in a block of the way,
// what stands around it, and when the change has come to rest.
#![tactic(auto)]
