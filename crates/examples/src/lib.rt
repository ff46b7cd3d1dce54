// Document 01's worked examples: one table and one claim, no code.
#![tactic(auto)]
