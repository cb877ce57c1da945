// What 01, RFC 3629 and IEEE 754 say, as definitions alone (specs/), and laws on them (proofs/). No code and no dependency.

#![tactic(auto)]
