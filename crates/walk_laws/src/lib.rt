// Laws about walks over the patches and their number: no code, only the modules of proofs/ that other crates cite.
#![tactic(auto)]
