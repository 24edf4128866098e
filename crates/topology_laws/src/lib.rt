// Laws on tables and topologies: no code.
#![tactic(auto)]
