// The arcs of one direction, with the paths along them.
#![tactic(auto)]

mod closing;
pub mod direction_arcs;
mod marking;
