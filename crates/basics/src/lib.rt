// Laws on lists and tests that the kit's libraries do not have. There is no code here: see proofs/.
#![tactic(auto)]
