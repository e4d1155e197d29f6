// The names and records of the segments of a shape.
ghost use Rattle.std.specs.Prelude.{◌≤◌};

use shape::by_direction::ByDirection;
use shape::source::MOST_POINTS;

mod asking;
mod filling;

// A row or a column: the point where it ends, a row's right end or a column's top, and how many wires of its direction have
// their near end, and their far end, on it.
#[derive(Clone, Copy)]
pub struct Segment {
    pub end: usize,
    pub near_ends: usize,
    pub far_ends: usize,
}

// What a point has in a direction: the name of its segment, and the record of a segment that the point names.
#[derive(Clone, Copy)]
struct Entry {
    name: usize,
    segment: Segment,
}

// For each direction 128 entries, one for each point; fixed, since a table asks for no memory.
#[derive(Clone, Copy)]
pub struct SegmentTable {
    points: usize,
    entries: ByDirection<[Entry; MOST_POINTS]>,
    ghost few: { points ≤ 128 },
}
