// What `written` says of a voice's models, shown: one list of them, each in one place or refused in one way; bytes behind a file change none of it. No code.

#![tactic(auto)]
