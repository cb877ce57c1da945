// The models of a voice in order, and the text of each, in the words of the record that a file says (proofs/). No code.

#![tactic(auto)]
