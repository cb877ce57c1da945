// Theorems alone: the walk straight over a tree text is the one that `written` has (02, Wish 12).

#![tactic(auto)]
