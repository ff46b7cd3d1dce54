// The round trip: what the writer writes, the reader accepts. Statements and theorems only.
#![tactic(auto)]
