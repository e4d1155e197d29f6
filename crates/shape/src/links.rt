// A table of neighbours: a row for each side, with a cell for each point, 0 where there is none.
ghost use Rattle.std.specs.Prelude.{◌≤◌};

use crate::direction::{Direction, Side};
use crate::points::PointCount;
use crate::source::MOST_POINTS;

// A fixed table: the board asks for no memory.
#[derive(Clone, Copy)]
pub(crate) struct Links {
    points: usize,
    cells: [[u8; MOST_POINTS]; 4],
    ghost few: { points ≤ 128 },
}

impl Links {
    ghost use Rattle.std.specs.Prelude.{◌≡◌, ℕ, ◌+◌};
    ghost use Rattle.segments.specs.Shapes.{Within};
    ghost use Rattle.shape.specs.Directions.{side_number, direction_number};
    ghost use Rattle.shape.specs.Tables.{Told, cell, of_links};

    // Points without wires.
    pub(crate) fn unjoined(points: PointCount) -> Links
        ensures points { result.points ≡ points.count }
        ensures cells { (d v : ℕ) → cell result d v ≡ 0 }
    {
        Links {
            points: points.count,
            cells: [[0; MOST_POINTS]; 4],
        }
    }

    pub(crate) fn points(&self) -> usize
        ensures { result ≡ self.now.points }
    {
        self.points
    }

    pub(crate) fn neighbour(&self, point: usize, side: Side) -> Option<usize>
        ensures { Told ((of_links self.now).next (side_number side) point) result }
    {
        if point == 0 || point > self.points {
            return None;
        }
        match self.cells[usize::from(side)][point - 1] {
            0 => None,
            next => Some(usize::from(next)),
        }
    }

    // A wire from one point to the right, or above, to another.
    pub(crate) fn join(&mut self, direction: Direction, from: usize, to: usize)
        requires from { Within self.old.points from }
        requires to { Within self.old.points to }
        ensures points { self.new.points ≡ self.old.points }
        ensures there { cell self.new (direction_number direction) from ≡ to }
        ensures back { cell self.new (direction_number direction + 2) to ≡ from }
        ensures others { (d v : ℕ) → 1 ≤ v → ((d ≡ direction_number direction) × (v ≡ from) → ⊥) → ((d ≡ direction_number direction + 2) × (v ≡ to) → ⊥) → cell self.new d v ≡ cell self.old d v }
    {
        self.cells[usize::from(direction.ahead())][from - 1] = to as u8;
        self.cells[usize::from(direction.behind())][to - 1] = from as u8;
    }
}
