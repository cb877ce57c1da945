// What is known of every load, by its public contract alone: demand 1 by number, what stands in the tables where a load is done, demand 3, and that
// the contract determines the outcome. No code.

#![tactic(auto)]
