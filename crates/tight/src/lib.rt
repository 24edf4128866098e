// A promise that is an equation with a definition leaves nothing open: no code.
#![tactic(auto)]
