// What is answered of a tree linked by reading, and of somebody else's rows for it, is what `written` says (02, Wishes 12 and 13). No code.

#![tactic(auto)]
