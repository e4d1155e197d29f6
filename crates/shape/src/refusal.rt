// Why a shape file is refused.
ghost use Rattle.std.specs.Prelude.{◌≡◌, Some};
ghost use Rattle.shape.specs.Refusals.{naming, naming_digits};

use std::fmt;

// Each case with a point names the lowest point at fault.
#[derive(Clone, Copy, Debug, PartialEq, Eq)]
pub enum Refusal {
    // under two bytes, or another letter
    NotAShape,
    // no points, too many, or a length that does not fit their number
    WrongSize,
    // a shape record's next number above the number of points, or an old sheet's joins above 3
    OutOfRange { point: usize },
    // a shape record's next number that a lower point has for that side, or an old sheet's spot of a lower point
    Repeated { point: usize },
    // a shape record's point on a chain that returns to it, or an old sheet's point joined to no point
    Endless { point: usize },
}

// A refusal's number under the rules, and the values that it names; what is not named is 0.
#[derive(Clone, Copy, Debug, PartialEq, Eq)]
pub struct Naming {
    pub number: usize,
    pub direction: usize,
    pub first: usize,
    pub second: usize,
}

impl Naming {
    // A number with what it names.
    pub fn new(number: usize, direction: usize, first: usize, second: usize) -> Naming
        ensures { result ≡ record { number = number; direction = direction; first = first; second = second } }
    {
        Naming {
            number,
            direction,
            first,
            second,
        }
    }
}

impl fmt::Display for Naming {
    ghost output = { λ n. Some (naming_digits n) };

    fn fmt<W: fmt::Write>(&self, f: &mut fmt::Formatter<W>) -> fmt::Result {
        write!(
            f,
            "{} {} {} {}",
            self.number, self.direction, self.first, self.second
        )
    }
}

impl From<Refusal> for Naming {
    ghost from_gives = { λ refusal named. named ≡ naming refusal };

    fn from(refusal: Refusal) -> Naming {
        match refusal {
            Refusal::NotAShape => Naming::new(1, 0, 0, 0),
            Refusal::WrongSize => Naming::new(2, 0, 0, 0),
            Refusal::OutOfRange { point } => Naming::new(3, 0, point, 0),
            Refusal::Repeated { point } => Naming::new(4, 0, point, 0),
            Refusal::Endless { point } => Naming::new(5, 0, point, 0),
        }
    }
}
