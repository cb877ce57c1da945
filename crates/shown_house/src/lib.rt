// The house's rules, as they are judged, are the rules as they are written (proofs/). No code.

#![tactic(auto)]
