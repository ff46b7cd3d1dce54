// The writer's layers, and the openings of its queries, in lent scratch. For the crate `writer` alone: what its tests have found is in the types, or
// required.
#![tactic(auto)]

pub mod layers;
pub mod queries;
pub mod scratch;
