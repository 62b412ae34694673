// The promises of the eleven calls, as definitions: specs/Calls is the page. There is no code here, so that a weakened promise can be refused by its clients alone.
#![tactic(auto)]
