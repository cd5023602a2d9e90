// Laws between the words of a lent table and the state that it pictures: no code, only the modules of proofs/ that other crates cite.
#![tactic(auto)]
