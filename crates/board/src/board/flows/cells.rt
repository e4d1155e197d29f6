// The cells of a flow, and the search for one above 0 off the arcs in force.
ghost use Rattle.std.specs.Prelude.{◌≡◌, ◌*◌, length, Decides, MatchResult};
ghost use Rattle.segments.specs.Shapes.{Within};
ghost use Rattle.shape.specs.Directions.{direction_number};
ghost use Rattle.logs.specs.declared.refusal.Refusal.TheVariants.{WrongCells};
ghost use Rattle.board.specs.Boards.{arcs_of};
ghost use Rattle.board.specs.Cells.{Laid, bytes_in, points_in, cell_in, OffCell, OffFrom, OffFirst};

use super::Flow;
use crate::board::Board;
use logs::refusal::Refusal;
use shape::by_direction::ByDirection;
use shape::direction::Direction;
use shape::ends::Arc;

impl<'a> Flow<'a> {
    // The two memories, if each has one cell for each two points.
    pub(in crate::board) fn over(
        board: &'a Board,
        across: &'a [u8],
        up: &'a [u8],
    ) -> Result<Flow<'a>, Refusal>
        ensures { let cells = board.now.segments.points * board.now.segments.points in MatchResult result (Laid board.now across.now up.now) (λ e. (e ≡ WrongCells) × ((length across.now ≡ cells) × (length up.now ≡ cells) → ⊥)) }
    {
        let points = board.segments.points();
        if across.len() != points * points || up.len() != points * points {
            return Err(Refusal::WrongCells);
        }
        Ok(Flow {
            board,
            cells: ByDirection { across, up },
        })
    }

    // The memory of a direction.
    pub(in crate::board) fn bytes(&self, direction: Direction) -> &'a [u8]
        ensures { result.now ≡ bytes_in self.now (direction_number direction) }
    {
        *self.cells.of(direction)
    }

    // The cell of an arc between two points.
    pub(super) fn cell(&self, direction: Direction, from: usize, to: usize) -> u8
        requires from { Within (points_in self.now) from }
        requires to { Within (points_in self.now) to }
        ensures { result ≡ cell_in self.now (direction_number direction) from to }
    {
        self.bytes(direction)[(from - 1) * self.board.segments.points() + (to - 1)]
    }

    // Whether the cell is above 0, and the arc not in force.
    fn is_off(&self, direction: Direction, from: usize, to: usize) -> bool
        requires from { Within (points_in self.now) from }
        requires to { Within (points_in self.now) to }
        ensures { Decides result (OffCell self.now (direction_number direction) from to) }
    {
        self.cell(direction, from, to) > 0 && !self.board.arcs.of(direction).has(from, to)
    }

    // Of the arcs from a point, the first with a cell above 0 that is not in force.
    fn off_from(&self, direction: Direction, from: usize) -> Option<Arc>
        requires { Within (points_in self.now) from }
        ensures { OffFrom self.now (direction_number direction) from result }
    {
        let to = (1..=self.board.segments.points()).find(|to| self.is_off(direction, from, *to))?;
        Some(Arc { from, to })
    }

    // Of all arcs the first such.
    pub(super) fn first_off(&self, direction: Direction) -> Option<Arc>
        ensures { OffFirst self.now (direction_number direction) result }
    {
        (1..=self.board.segments.points()).find_map(|from| self.off_from(direction, from))
    }
}
