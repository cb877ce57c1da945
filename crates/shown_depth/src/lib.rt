// What the depth check's answer says of walks (02, Wish 8). No code.

#![tactic(auto)]
