// Rows, columns and arcs of any source: the names of a point's row and column, the ends that they run to, and the arc of a wire.
// The public functions take sides and directions by their numbers, since the rules answer every number.
ghost use Rattle.std.specs.Prelude.{ℕ, Decides};
ghost use Rattle.segments.specs.Shapes.{Point};
ghost use Rattle.shape.specs.Directions.{side_number, direction_number};
ghost use Rattle.shape.specs.Ends.{TellsEnd, TellsSegment, TellsArc};

use crate::direction::{Direction, Side};
use crate::source::ShapeSource;

// b lies at least one step further right, or higher, than a: from a to b, both named as columns or as rows.
#[derive(Clone, Copy, Debug, PartialEq, Eq)]
pub struct Arc {
    pub from: usize,
    pub to: usize,
}

// Whether a number is a point.
fn is_point<S: ShapeSource>(source: &S, point: usize) -> bool
    ensures { Decides result (Point (S.ShapeSource.shape source.now) point) }
{
    1 <= point && point <= source.points()
}

// The point that ends the chain from a point to a side.
fn chain_end<S: ShapeSource>(source: &S, point: usize, side: Side) -> Option<usize>
    ensures { TellsEnd (S.ShapeSource.shape source.now) (side_number side) point result }
{
    if !is_point(source, point) {
        return None;
    }
    let mut at = point;
    while let Some(next) = source.beside(at, side) {
        at = next;
    }
    Some(at)
}

// The name of a point's segment.
fn segment<S: ShapeSource>(source: &S, direction: Direction, point: usize) -> Option<usize>
    ensures { TellsSegment (S.ShapeSource.shape source.now) (direction_number direction) point result }
{
    chain_end(source, point, direction.naming_end())
}

// The point that ends the chain from a point to a side; none for a number that is no point.
pub fn last_point<S: ShapeSource>(source: &S, point: usize, side: usize) -> Option<usize>
    ensures { TellsEnd (S.ShapeSource.shape source.now) side point result }
{
    match Side::try_from(side) {
        Ok(side) => chain_end(source, point, side),
        // A chain to no side ends where it begins.
        Err(_) => is_point(source, point).then_some(point),
    }
}

// The name of a point's segment: for direction 0 its column, for 1 its row.
pub fn segment_of<S: ShapeSource>(source: &S, direction: usize, point: usize) -> Option<usize>
    ensures { TellsSegment (S.ShapeSource.shape source.now) direction point result }
{
    segment(source, Direction::try_from(direction).ok()?, point)
}

// The words that the rules use, each a call of the functions above:
// the name of a point's row, its leftmost point,
pub fn row_of<S: ShapeSource>(source: &S, point: usize) -> Option<usize>
    ensures { TellsSegment (S.ShapeSource.shape source.now) 1 point result }
{
    segment(source, Direction::Up, point)
}

// the name of a point's column, its lowest point,
pub fn column_of<S: ShapeSource>(source: &S, point: usize) -> Option<usize>
    ensures { TellsSegment (S.ShapeSource.shape source.now) 0 point result }
{
    segment(source, Direction::Across, point)
}

// the right end of a point's row,
pub fn right_end<S: ShapeSource>(source: &S, point: usize) -> Option<usize>
    ensures { TellsEnd (S.ShapeSource.shape source.now) 0 point result }
{
    chain_end(source, point, Side::Right)
}

// and the top end of a point's column.
pub fn top_end<S: ShapeSource>(source: &S, point: usize) -> Option<usize>
    ensures { TellsEnd (S.ShapeSource.shape source.now) 1 point result }
{
    chain_end(source, point, Side::Above)
}

// The arc of the wire that begins at a point and goes to the right, for direction 0, or above, for 1.
pub fn own_arc<S: ShapeSource>(source: &S, direction: usize, point: usize) -> Option<Arc>
    ensures { TellsArc (S.ShapeSource.shape source.now) direction point result }
{
    let direction = Direction::try_from(direction).ok()?;
    let from = segment(source, direction, point)?;
    let next = source.beside(point, direction.ahead())?;
    let to = segment(source, direction, next)?;
    Some(Arc { from, to })
}
