// What follows from the definitions of the calls: no code.
#![tactic(auto)]
