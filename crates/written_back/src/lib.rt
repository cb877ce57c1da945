// What `written` says of tables back to text (02, Wish 6), shown: what is spelled reads back, each row set has one text, refused in one way or written. No code.

#![tactic(auto)]
