// The header definitions of `written`, computed: every value and section text is read or refused, and what they answer to some dozens of texts. No code.

#![tactic(auto)]
