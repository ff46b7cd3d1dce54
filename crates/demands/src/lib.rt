// The user's second and third demand, of the reader with SHA-256: statements and theorems only.
#![tactic(auto)]
