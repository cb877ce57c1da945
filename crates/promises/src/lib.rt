// The front door: what is promised of each exported call, in the words of `written` and of host/larsavim.h. specs/ has the promises, one for each call; proofs/ shows
// that the contracts of `larsavim` keep them. No code.

#![tactic(auto)]
