// Worked examples of `written`: a small whole file (Example), 01's tree texts, their records and walks, and texts that say nothing (Examples). No code.

#![tactic(auto)]
