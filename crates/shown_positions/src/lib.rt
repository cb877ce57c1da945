// [POSITION] answers as `written` says: the durations, its groups and their limits. No code.

#![tactic(auto)]
