// What `written` says of house voices (02, Wish 11), shown: each rule is decided, one is the first that is broken, each file has one answer. No code.

#![tactic(auto)]
