// The run theorem: what holds after any lines. No code: see specs/.
#![tactic(auto)]
