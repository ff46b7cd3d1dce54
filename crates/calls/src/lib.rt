// Lists of calls, the plain reader, and what the third demand says of a reader: definitions and theorems only.
#![tactic(auto)]
