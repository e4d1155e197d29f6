// The lengths of a drawing's wires.
ghost use Rattle.std.specs.Prelude.{◌≡◌, ℕ, ◌<◌, ◌≤◌, length};
ghost use Rattle.segments.specs.Shapes.{Shape, Point};
ghost use Rattle.shape.specs.Directions.{direction_number};
ghost use Rattle.board.specs.Measuring.{along, wire_span, span_sum};

use logs::spot::Spot;
use shape::direction::Direction;
use shape::source::ShapeSource;

// A place's coordinate in a direction.
fn coordinate(spot: &Spot, direction: Direction) -> u16
    ensures { result ≡ along (direction_number direction) spot.now }
{
    match direction {
        Direction::Across => spot.x,
        Direction::Up => spot.y,
    }
}

// How far the wire of a direction leads from a point; 0 where there is none.
fn wire_length<S: ShapeSource>(
    source: &S,
    points: &[Spot],
    direction: Direction,
    point: usize,
) -> u32
    requires fits { length points.now ≡ (S.ShapeSource.shape source.now).points }
    requires point { Point (S.ShapeSource.shape source.now) point }
    ensures span { result ≡ wire_span (S.ShapeSource.shape source.now) points.now (direction_number direction) point }
    ensures small { result < 65536 }
{
    let Some(next) = source.beside(point, direction.ahead()) else {
        return 0;
    };
    let far = coordinate(&points[next - 1], direction);
    let near = coordinate(&points[point - 1], direction);
    u32::from(far.saturating_sub(near))
}

// The total: for each point the wires to the right of it and above it are added.
// By a rule of the project: a loop over the points with their index.
pub(crate) fn total_length<S: ShapeSource>(source: &S, points: &[Spot]) -> u32
    requires { length points.now ≡ (S.ShapeSource.shape source.now).points }
    ensures { result ≡ span_sum (S.ShapeSource.shape source.now) points.now (length points.now) }
{
    let mut total = 0;
    for (index, _) in points.iter().enumerate() {
        total += wire_length(source, points, Direction::Across, index + 1);
        total += wire_length(source, points, Direction::Up, index + 1);
    }
    total
}
