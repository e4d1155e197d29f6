// The places of the points, by the coordinates of their columns and rows.
ghost use Rattle.std.specs.Prelude.{◌≡◌, ℕ, ◌≤◌, length};
ghost use Rattle.segments.specs.Shapes.{Shape, Lawful, Point};
ghost use Rattle.segments.specs.Segments.{segment};
ghost use Rattle.shape.specs.Directions.{direction_number};
ghost use Rattle.segment_table.specs.Records.{Recorded};
ghost use Rattle.board.specs.Measuring.{spot_along};
ghost use Rattle.board.specs.Placing.{coordinate_in, placed_at};

use logs::spot::Spot;
use propagation::graph::MOST_NODES;
use segment_table::table::SegmentTable;
use shape::by_direction::ByDirection;
use shape::direction::Direction;

// For each direction the coordinates of its segments: that of the segment named a stands at a - 1.
pub(crate) type Coordinates = ByDirection<[u16; MOST_NODES]>;

// The coordinate of a point's segment.
fn coordinate_of(
    segments: &SegmentTable,
    coordinates: &Coordinates,
    direction: Direction,
    point: usize,
) -> u16
    ensures { result ≡ placed_at segments.now coordinates.now (direction_number direction) point }
{
    match segments.name(usize::from(direction), point) {
        Some(name) if name >= 1 && name <= MOST_NODES => coordinates.of(direction)[name - 1],
        _ => 0,
    }
}

// Each point's record gets its place.
pub(crate) fn write_places(segments: &SegmentTable, coordinates: &Coordinates, points: &mut [Spot])
    ensures long { length points.new ≡ length points.old }
    ensures places { (s : Shape) → Lawful s → Recorded s segments.now → length points.old ≡ s.points → (dir v : ℕ) → dir ≤ 1 → Point s v → spot_along points.new dir v ≡ coordinate_in coordinates.now dir (segment s dir v) }
{
    for (index, spot) in points.iter_mut().enumerate() {
        *spot = Spot {
            x: coordinate_of(segments, coordinates, Direction::Across, index + 1),
            y: coordinate_of(segments, coordinates, Direction::Up, index + 1),
        };
    }
}
