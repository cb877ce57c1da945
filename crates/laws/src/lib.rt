// Laws on runs, places, tables and ranges that several crates cite, and the runs that compute (specs/). No code.

#![tactic(auto)]
