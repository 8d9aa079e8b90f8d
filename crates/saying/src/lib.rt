// What the tablet says are honest lines of runs. No code: see specs/ and proofs/.
#![tactic(auto)]
