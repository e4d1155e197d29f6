// Filling a table of segment records from a source of shapes.
ghost use Rattle.std.specs.Prelude.{◌≡◌, ℕ, ◌+◌, ◌-◌, ◌<◌, ◌≤◌, if◌then◌else◌, ◌==◌, length};
ghost use Rattle.segments.specs.Shapes.{Within, Point};
ghost use Rattle.segments.specs.Segments.{last, segment};
ghost use Rattle.shape.specs.Directions.{direction_number};
ghost use Rattle.segment_table.specs.Records.{entry_of, Recorded, Along, Uncounted};

use super::{Entry, Segment, SegmentTable};
use shape::by_direction::ByDirection;
use shape::direction::Direction;
use shape::ends::{last_point, own_arc, segment_of};
use shape::source::{MOST_POINTS, ShapeSource};
use std::array;

// A point's entry with no wire counted yet: its segment's name, and the end of the line from it.
fn uncounted<S: ShapeSource>(source: &S, direction: Direction, point: usize) -> Entry
    ensures { Uncounted (S.ShapeSource.shape source.now) (direction_number direction) point result }
{
    Entry {
        name: segment_of(source, usize::from(direction), point).unwrap_or(0),
        segment: Segment {
            end: last_point(source, point, usize::from(direction.far_end())).unwrap_or(0),
            near_ends: 0,
            far_ends: 0,
        },
    }
}

// Counts the wire that begins at a point, if there is one.
fn count_from<S: ShapeSource>(
    entries: &mut [Entry; MOST_POINTS],
    source: &S,
    direction: Direction,
    point: usize,
)
    requires point { Point (S.ShapeSource.shape source.now) point }
    requires before { Along (S.ShapeSource.shape source.now) (direction_number direction) (point - 1) entries.old }
    ensures { Along (S.ShapeSource.shape source.now) (direction_number direction) point entries.new }
{
    if let Some(arc) = own_arc(source, usize::from(direction), point) {
        SegmentTable::count(entries, arc.from, arc.to);
    }
}

// The entries of a direction.
fn entries_along<S: ShapeSource>(source: &S, direction: Direction) -> [Entry; MOST_POINTS]
    ensures { Along (S.ShapeSource.shape source.now) (direction_number direction) (S.ShapeSource.shape source.now).points result }
{
    let mut entries = array::from_fn(|index| uncounted(source, direction, index + 1));
    for point in 1..=source.points() {
        count_from(&mut entries, source, direction, point);
    }
    entries
}

impl SegmentTable {
    // The names, ends and wires of the segments of a source.
    pub fn of<S: ShapeSource>(source: &S) -> SegmentTable
        ensures { Recorded (S.ShapeSource.shape source.now) result }
    {
        SegmentTable {
            points: source.points(),
            entries: ByDirection {
                across: entries_along(source, Direction::Across),
                up: entries_along(source, Direction::Up),
            },
        }
    }

    // Counts a wire with its near end on one segment and its far end on another.
    // By a rule of the project: each of the two records is lent to be changed.
    fn count(entries: &mut [Entry; MOST_POINTS], near: usize, far: usize)
        requires near { Within 128 near }
        requires far { Within 128 far }
        requires room { ((entry_of entries.old near).segment.near_ends ≤ 128) × ((entry_of entries.old far).segment.far_ends ≤ 128) }
        ensures names { (v : ℕ) → (entry_of entries.new v).name ≡ (entry_of entries.old v).name }
        ensures ends { (v : ℕ) → (entry_of entries.new v).segment.end ≡ (entry_of entries.old v).segment.end }
        ensures near { (v : ℕ) → Within 128 v → (entry_of entries.new v).segment.near_ends ≡ (entry_of entries.old v).segment.near_ends + (if v == near then 1 else 0) }
        ensures far { (v : ℕ) → Within 128 v → (entry_of entries.new v).segment.far_ends ≡ (entry_of entries.old v).segment.far_ends + (if v == far then 1 else 0) }
    {
        let segment = &mut entries[near - 1].segment;
        segment.near_ends += 1;
        let segment = &mut entries[far - 1].segment;
        segment.far_ends += 1;
    }
}
