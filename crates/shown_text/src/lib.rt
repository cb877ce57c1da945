// What loading a tree text stores and refuses is what `written` says of that text. No code.

#![tactic(auto)]
