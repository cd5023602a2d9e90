// The rules of the grid: no code, only the definitions of specs/ and the modules of proofs/ that other crates cite.
#![tactic(auto)]
