// What a source of shapes tells.
ghost use Rattle.std.specs.Prelude.{◌≡◌, ℕ};
ghost use Rattle.segments.specs.Shapes.{Shape, Lawful};
ghost use Rattle.shape.specs.Directions.{side_number};
ghost use Rattle.shape.specs.Tables.{Told};

use crate::direction::Side;

// The most points that a shape has.
pub const MOST_POINTS: usize = 128;

pub trait ShapeSource {
    ghost shape: { Self → Shape };

    fn points(&self) -> usize
        ensures { result ≡ (shape self.now).points };

    // By the number of the side, since the rules answer every number.
    fn neighbour(&self, point: usize, side: usize) -> Option<usize>
        ensures { Told ((shape self.now).next side point) result };

    // The same, for a side by its name.
    final fn beside(&self, point: usize, side: Side) -> Option<usize>
        ensures { Told ((shape self.now).next (side_number side) point) result }
    {
        self.neighbour(point, usize::from(side))
    }

    ghost lawful: { (s : Self) → Lawful (shape s) };
}
