// No code: what changes in the tablet's memory is what changes up the ways of `runs`.
#![tactic(auto)]
