// 01's thirteen sums: one statement over one list. No code.

#![tactic(auto)]
