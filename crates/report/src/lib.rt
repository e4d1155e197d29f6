// The rows, columns and arcs of a shape as text.
#![tactic(auto)]

pub mod arc_text;
pub mod file_text;
mod lines;
pub mod place_text;
pub mod refusal_text;
pub mod segment_text;
pub mod shape_text;
