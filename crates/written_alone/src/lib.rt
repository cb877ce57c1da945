// What `written` says of one tree of a text by itself, shown: rows from the voice maker (02, Wish 13), the walk over the text (Wish 12). No code.

#![tactic(auto)]
