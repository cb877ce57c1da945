// What crosses to C and comes back: the words of an opening are the record that was opened, and COMMENT's numbers are its text (proofs/Back). No code.

#![tactic(auto)]
