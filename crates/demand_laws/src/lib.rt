// Laws that join the geometry, the numbers and the rules of the grid: no code, only the modules of proofs/ that other crates cite.
#![tactic(auto)]
