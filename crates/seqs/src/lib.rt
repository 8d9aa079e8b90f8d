// Laws on lists and buffers that the proofs of every loop cite. No code: see specs/.
#![tactic(auto)]
