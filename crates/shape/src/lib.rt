// Sources of shapes: which points a wire joins, and on which side.
#![tactic(auto)]

mod body;
pub mod by_direction;
pub mod copy;
pub mod direction;
pub mod ends;
mod format;
mod header;
mod links;
mod neighbours;
pub mod old_sheet;
mod points;
pub mod record;
pub mod refusal;
mod shape_table;
pub mod source;
pub mod turned;
mod wires;
