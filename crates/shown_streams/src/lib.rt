// [STREAM] answers as `written` says: its groups and their limits. No code.

#![tactic(auto)]
