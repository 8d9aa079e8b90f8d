// Memory that keeps a tree of slots: what its nodes, siblings and climbs are of that tree. No code: see specs/.
#![tactic(auto)]
