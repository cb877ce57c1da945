// What the lines of groups answer is what `written` says: rows, groups by first appearance, and what a group's rows say, over any table of fields. No code.

#![tactic(auto)]
