// What a table of segment records tells.
ghost use Rattle.std.specs.Prelude.{◌≡◌, ℕ, ◌≤◌, Decides};
ghost use Rattle.segments.specs.Shapes.{Shape, Within};
ghost use Rattle.segments.specs.Segments.{Named};
ghost use Rattle.drawings.specs.Arcs.{Touch};
ghost use Rattle.shape.specs.Directions.{direction_number};
ghost use Rattle.segment_table.specs.Records.{Crossing, entry_in, name_in, record_in, Recorded, Tells};

use super::{Entry, Segment, SegmentTable};
use shape::direction::Direction;

impl SegmentTable {
    pub fn points(&self) -> usize
        ensures { result ≡ self.now.points }
    {
        self.points
    }

    // What a point has in a direction.
    fn entry(&self, direction: Direction, point: usize) -> &Entry
        requires { Within self.now.points point }
        ensures { result.now ≡ entry_in self.now (direction_number direction) point }
    {
        &self.entries.of(direction)[point - 1]
    }

    // The same by the direction's number; none where a number is no direction, or no point of the table.
    fn entry_at(&self, direction: usize, point: usize) -> Option<Entry>
        ensures { Tells self.now direction point (entry_in self.now direction point) result }
    {
        let direction = Direction::try_from(direction).ok()?;
        if point == 0 || point > self.points {
            return None;
        }
        Some(*self.entry(direction, point))
    }

    // The name of a point's segment of a direction.
    pub fn name(&self, direction: usize, point: usize) -> Option<usize>
        ensures { Tells self.now direction point (name_in self.now direction point) result }
    {
        Some(self.entry_at(direction, point)?.name)
    }

    // The record at a point: of the segment that the point names, if it names one.
    pub fn segment(&self, direction: usize, point: usize) -> Option<Segment>
        ensures { Tells self.now direction point (record_in self.now direction point) result }
    {
        Some(self.entry_at(direction, point)?.segment)
    }

    // Whether a number names a segment of a direction.
    pub fn is_name(&self, direction: usize, number: usize) -> bool
        ensures { (s : Shape) → Recorded s self.now → Decides result (Named s direction number) }
    {
        self.name(direction, number) == Some(number)
    }

    // Whether a point lies on a row and on a column.
    fn lies_on(&self, point: usize, row: usize, column: usize) -> bool
        requires { Within self.now.points point }
        ensures { Decides result (Crossing self.now row column point) }
    {
        self.entry(Direction::Up, point).name == row
            && self.entry(Direction::Across, point).name == column
    }

    // Whether a row and a column touch: some point lies on both.
    pub fn touch(&self, row: usize, column: usize) -> bool
        ensures { (s : Shape) → Recorded s self.now → Decides result (Touch s row column) }
    {
        // An open range: each step of a closed one makes more tests than the question asks.
        (1..self.points + 1).any(|point| self.lies_on(point, row, column))
    }
}
