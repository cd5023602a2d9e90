// Laws about rows, tables and what they picture: no code, only the modules of proofs/ that other crates cite.
#![tactic(auto)]
