// What is promised, on one page (specs/Demands.antt). There is no code here.
#![tactic(auto)]
