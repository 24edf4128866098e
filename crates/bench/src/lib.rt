// The bench cases of the scope, proved together as one table: no code.
#![tactic(auto)]
