// Trees, ascending lists and their rings: what a root stands for, and what each memorandum says of it. No code: see
// specs/ for the definitions and proofs/ for the theory.
#![tactic(auto)]
