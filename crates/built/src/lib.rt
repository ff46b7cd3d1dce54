// The proof that document 01 builds from a polynomial: definitions and theorems only.
#![tactic(auto)]
