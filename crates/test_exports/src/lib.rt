// The proved calls under C names, for the programs in tests/ and bench/ that compare them with independent ones. Each does nothing but pass on;
// its contract is that of the call it names.
#![tactic(auto)]

mod leaves;
mod parts;
mod whole;
