// Demand 3: every domain is as shallow as the CPUs under it stand for, by their history alone. No code.
#![tactic(auto)]
