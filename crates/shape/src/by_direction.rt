// A value for each direction.
ghost use Rattle.std.specs.Prelude.{◌≡◌};
ghost use Rattle.std.specs.Borrow.{sem};
ghost use Rattle.shape.specs.Directions.{direction_number};
ghost use Rattle.shape.specs.ByDirections.{of_direction, LendsDirection};

use crate::direction::Direction;

#[derive(Clone, Copy, Drop)]
pub struct ByDirection<T> {
    pub across: T,
    pub up: T,
}

impl<T> ByDirection<T> {
    // The value of a direction.
    pub fn of(&self, direction: Direction) -> &T
        ensures { result.now ≡ of_direction self.now (direction_number direction) }
    {
        match direction {
            Direction::Across => &self.across,
            Direction::Up => &self.up,
        }
    }

    // The same, to be changed; the other direction's value stays.
    pub fn of_mut(&mut self, direction: Direction) -> &mut T
        ensures* writes_back { sem 𝓛 (LendsDirection T.row self.entry (direction_number direction) result) }
        ensures value { result.now ≡ of_direction self.old (direction_number direction) }
    {
        match direction {
            Direction::Across => &mut self.across,
            Direction::Up => &mut self.up,
        }
    }
}
