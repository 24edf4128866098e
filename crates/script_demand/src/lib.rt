// Demand 3 for scripts, from bytes to states. No code.
#![tactic(auto)]
