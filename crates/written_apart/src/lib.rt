// What `written` says of header files, shown: read or refused, never both, and refused in one way, number and place. No code.

#![tactic(auto)]
