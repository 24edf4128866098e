// Laws on kinds and on suspend requests. There is no code here: see proofs/.
#![tactic(auto)]
