// Labels carried along the arcs of a constraint graph: one engine for every graph and every label.
#![tactic(auto)]

pub mod arc_table;
pub mod engine;
pub mod flow_layer;
pub mod graph;
pub mod label;
pub mod longest;
pub mod place;
pub mod reach;
pub mod reaching;
pub mod refusal;
