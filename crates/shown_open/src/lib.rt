// Opening a file answers as `written` says: the record that the file says, or its refusal, with number and place. No code.

#![tactic(auto)]
