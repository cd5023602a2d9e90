// Laws about the steps of a request on a table: no code, only the definitions and modules of proofs/ that other crates cite.
#![tactic(auto)]
