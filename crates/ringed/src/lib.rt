// Which leaves are one ascending ring, and how that is seen of them pair by pair. No code: see specs/.
#![tactic(auto)]
