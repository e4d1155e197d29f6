// The constraint graphs of a shape.
#![tactic(auto)]

pub mod least;
pub mod own_arcs;
