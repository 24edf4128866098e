// Laws on the minimum: no code.
#![tactic(auto)]
