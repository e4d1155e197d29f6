// Flows laid over a board.
ghost use Rattle.std.specs.Prelude.{◌≡◌, ◌*◌, length};

use super::Board;
use shape::by_direction::ByDirection;

mod balance;
mod cells;
mod checks;

// For each direction a memory of one cell for each two points of the board, row by row.
// Points are asked for as they are counted: a type for a point of the board would be made and taken apart at each question.
#[derive(Clone, Copy)]
pub(super) struct Flow<'a> {
    board: &'a Board,
    cells: ByDirection<&'a [u8]>,
    ghost across_fits: { length cells.across.now ≡ board.now.segments.points * board.now.segments.points },
    ghost up_fits: { length cells.up.now ≡ board.now.segments.points * board.now.segments.points },
}
