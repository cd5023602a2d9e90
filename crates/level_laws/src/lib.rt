// Laws about leaves beside each other (02, No. 1): no code, only the definitions of specs/ and the modules of proofs/ that other crates cite.
#![tactic(auto)]
