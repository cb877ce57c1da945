// Where a tree text breaks (02, Wish 2): the place that the survey answers is the one that `written` says (proofs/Place). No code.

#![tactic(auto)]
