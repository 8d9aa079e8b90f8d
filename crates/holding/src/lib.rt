// When memory holds a ring of leaves, and what loading and saving come to. No code: see specs/.
#![tactic(auto)]
