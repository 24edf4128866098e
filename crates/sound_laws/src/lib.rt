// Theorems on sound state records: no code.
#![tactic(auto)]
