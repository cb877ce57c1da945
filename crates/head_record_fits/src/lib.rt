// When a header record fits a file: 16 for the record (01, 'Numbers the loader gives'; docs/DECISIONS.md, 'The record'), as a definition over the record's structs
// (specs/Fits) and what it means (proofs/Inside, proofs/Said). `head_words_fit` judges a record where it stands, in words.

#![tactic(auto)]
