// Laws about places and sets of cells: no code, only the modules of specs/ and proofs/ that other crates cite.
#![tactic(auto)]
