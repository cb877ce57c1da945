// Two tasks in one set of tables (02, Wish 9): what a shared load and an unload answer and leave, over any fill (specs/), and that neither task changes
// anything of the other's (proofs/). No code.

#![tactic(auto)]
