// What `written` says of a tree's depth (02, Wish 8), shown: found from the leaves up (Deepest, by Pigeonhole), one answer, and what it says of walks (Paths). No code.

#![tactic(auto)]
