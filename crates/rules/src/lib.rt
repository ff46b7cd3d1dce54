// Definitions and theorems only: the table of refusals, row by row (specs/), and that the judgement refuses exactly by it (proofs/).
#![tactic(auto)]
