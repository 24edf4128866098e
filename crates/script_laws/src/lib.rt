// What follows from the definitions of scripts; no code.
#![tactic(auto)]
