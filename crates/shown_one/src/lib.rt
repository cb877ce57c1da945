// What is known of the load of one tree through a trailer, by the contracts alone (02, Wish 7): where the rows reach a text's trees it loads as the full load has it, its walk is
// that tree's walk, and where linking is refused in that tree, so is it. No code.

#![tactic(auto)]
