// The sides of a point and the directions of wires and arcs, with the numbers that the rules give them.
ghost use Rattle.std.specs.Prelude.{◌≡◌, ◌+◌, ◌-◌, Some};
ghost use Rattle.shape.specs.Checks.{FindsDirection};
ghost use Rattle.shape.specs.Directions.{side_number, direction_number, direction_text, NumbersSide, NumbersDirection};

use std::fmt;

#[derive(Clone, Copy, Debug, PartialEq, Eq)]
pub enum Side {
    Right,
    Above,
    Left,
    Below,
}

// A wire and an arc go to the right, or above.
#[derive(Clone, Copy, Debug, PartialEq, Eq)]
pub enum Direction {
    Across,
    Up,
}

// A number of no side, or of no direction.
#[derive(Clone, Copy, Debug, PartialEq, Eq)]
pub struct Unnumbered;

impl From<Side> for usize {
    ghost from_gives = { λ side n. n ≡ side_number side };

    fn from(side: Side) -> usize {
        match side {
            Side::Right => 0,
            Side::Above => 1,
            Side::Left => 2,
            Side::Below => 3,
        }
    }
}

impl TryFrom<usize> for Side {
    type Error = Unnumbered;

    ghost try_from_gives = { NumbersSide };

    fn try_from(number: usize) -> Result<Side, Unnumbered> {
        match number {
            0 => Ok(Side::Right),
            1 => Ok(Side::Above),
            2 => Ok(Side::Left),
            3 => Ok(Side::Below),
            _ => Err(Unnumbered),
        }
    }
}

impl From<Direction> for usize {
    ghost from_gives = { λ direction n. n ≡ direction_number direction };

    fn from(direction: Direction) -> usize {
        match direction {
            Direction::Across => 0,
            Direction::Up => 1,
        }
    }
}

impl TryFrom<usize> for Direction {
    type Error = Unnumbered;

    ghost try_from_gives = { NumbersDirection };

    fn try_from(number: usize) -> Result<Direction, Unnumbered> {
        match number {
            0 => Ok(Direction::Across),
            1 => Ok(Direction::Up),
            _ => Err(Unnumbered),
        }
    }
}

impl Direction {
    // Whether a test passes one of the directions.
    pub(crate) fn any<F: Fn(Direction) -> bool>(test: F) -> bool
        requires { F.IsAlwaysCallable test }
        ensures { FindsDirection (λ d r. F.post test d r) result }
    {
        test(Direction::Across) || test(Direction::Up)
    }

    pub fn other(self) -> Direction
        ensures { direction_number result ≡ 1 - direction_number self }
    {
        match self {
            Direction::Across => Direction::Up,
            Direction::Up => Direction::Across,
        }
    }

    // The side that wires of the direction go to.
    pub fn ahead(self) -> Side
        ensures { side_number result ≡ direction_number self }
    {
        match self {
            Direction::Across => Side::Right,
            Direction::Up => Side::Above,
        }
    }

    // The side that they come from.
    pub fn behind(self) -> Side
        ensures { side_number result ≡ direction_number self + 2 }
    {
        match self {
            Direction::Across => Side::Left,
            Direction::Up => Side::Below,
        }
    }

    // The side of the end that a segment of the direction is named by: a column's lowest point, a row's leftmost.
    pub fn naming_end(self) -> Side
        ensures { side_number result ≡ 3 - direction_number self }
    {
        self.other().behind()
    }

    // The side of its other end.
    pub fn far_end(self) -> Side
        ensures { side_number result ≡ 1 - direction_number self }
    {
        self.other().ahead()
    }
}

impl fmt::Display for Direction {
    ghost output = { λ direction. Some (direction_text direction) };

    fn fmt<W: fmt::Write>(&self, f: &mut fmt::Formatter<W>) -> fmt::Result {
        f.write_str(match self {
            Direction::Across => "across",
            Direction::Up => "up",
        })
    }
}
