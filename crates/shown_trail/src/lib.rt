// What the calls on a trailer answer, in the words of the record that a file says (proofs/). No code.

#![tactic(auto)]
