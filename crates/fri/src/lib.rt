// The specification of a proof file and its judgement: definitions and theorems only. The code that meets them is in the crates above.
#![tactic(auto)]
