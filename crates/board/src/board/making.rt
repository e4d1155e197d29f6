// Boards are made over any source of shapes.
ghost use Rattle.std.specs.Prelude.{[]};
ghost use Rattle.path_table.specs.Tracks.{OfShape};
ghost use Rattle.shape.specs.Directions.{direction_number};
ghost use Rattle.board.specs.Boards.{Stands};

use super::Board;
use path_table::direction_arcs::DirectionArcs;
use segment_table::table::SegmentTable;
use shape::by_direction::ByDirection;
use shape::copy::ShapeCopy;
use shape::direction::Direction;
use shape::source::ShapeSource;

// The shape's own arcs of a direction.
fn own_arcs<S: ShapeSource>(source: &S, direction: Direction) -> DirectionArcs
    ensures { OfShape (S.ShapeSource.shape source.now) (direction_number direction) result }
{
    DirectionArcs::of(source, usize::from(direction)).unwrap()
}

impl Board {
    // A fresh board, with nothing in force but the shape's own arcs.
    pub fn over<S: ShapeSource>(source: &S) -> Board
        ensures { Stands (S.ShapeSource.shape source.now) [] result }
    {
        let shape = ShapeCopy::of(source);
        let segments = SegmentTable::of(&shape);
        let across = own_arcs(&shape, Direction::Across);
        let up = own_arcs(&shape, Direction::Up);
        let contradictory = across.closes_circle() || up.closes_circle();
        Board {
            shape,
            segments,
            arcs: ByDirection { across, up },
            contradictory,
        }
    }
}
