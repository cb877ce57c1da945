// Demand 3 of a load used by computation, on a small model. No code.

#![tactic(auto)]
