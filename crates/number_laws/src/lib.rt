// Laws about entries and their numbers: no code, only the modules of proofs/ that other crates cite.
#![tactic(auto)]
