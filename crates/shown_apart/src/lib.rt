// Day voice and night voice in the same tables (02, Wish 9): what the theorems of `load_apart` say of the loads and unloads of this library, and calls of both
// tasks one after another. No code.

#![tactic(auto)]
