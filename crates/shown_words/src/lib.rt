// The header record crosses to C as words and comes back as it was (proofs/Back, `read-written`). No code.

#![tactic(auto)]
