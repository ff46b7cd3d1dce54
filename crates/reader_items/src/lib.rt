// What each item of a file does to the reader's state, up to the queries. For the crates `reader_queries`, `reader_pieces` and `reader` alone.
#![tactic(auto)]

pub mod sane;
pub mod sections;
pub mod state;
