// The tablet's conversation with the module. No code: see specs/ and proofs/.
#![tactic(auto)]
