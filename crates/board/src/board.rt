// A board: a shape taken in whole, the records of its rows and columns, and the arcs in force of each direction.
// That a board stands for a log is a premise of each promise, and no field keeps it: what is in force is a relation with
// proofs of its own, and a ghost field has to be a mere proposition.
use path_table::direction_arcs::DirectionArcs;
use segment_table::table::SegmentTable;
use shape::by_direction::ByDirection;
use shape::copy::ShapeCopy;

mod changes;
mod drawing;
mod flows;
mod making;
mod names;
mod pairs;

#[derive(Drop)]
pub struct Board {
    shape: ShapeCopy,
    segments: SegmentTable,
    arcs: ByDirection<DirectionArcs>,
    // the shape's own arcs have a circle
    contradictory: bool,
}
