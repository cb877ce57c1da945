// Which model is chosen and where it stands, in the words of the record that a file says (proofs/Chosen). No code.

#![tactic(auto)]
