// Laws that the proofs above cite. It holds no code: see proofs/.
#![tactic(auto)]
