// The front door used on a small voice, by computation. No code.

#![tactic(auto)]
