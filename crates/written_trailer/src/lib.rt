// What `written` says of a trailer behind a voice's data (02, Wish 7), shown: one for each voice, read as it was written, every answer of writing and reading. No code.

#![tactic(auto)]
