// Why a call on a board is refused.
ghost use Rattle.std.specs.Prelude.{◌≡◌};
ghost use Rattle.logs.specs.Refusals.{naming};

use shape::refusal::Naming;

// A direction is a number here and an arc three, as in the definitions that say which values a refusal names: with types of their own these would only be taken apart again.
#[derive(Clone, Copy, Debug, PartialEq, Eq)]
pub enum Refusal {
    // a direction above 1
    NoDirection,
    // the first number that names no column or row of the direction
    NoSegment {
        number: usize,
    },
    // the shape's own arcs have a circle
    Contradictory,
    // the end of the arc is its beginning, or reaches it
    ClosesCircle {
        direction: usize,
        from: usize,
        to: usize,
    },
    NotInForce {
        direction: usize,
        from: usize,
        to: usize,
    },
    GivenByShape {
        direction: usize,
        from: usize,
        to: usize,
    },
    // a points memory that has not one record for each point
    WrongPoints,
    // a flow memory that has not one cell for each two points
    WrongCells,
    // the lowest row of an open pair, and its lowest column
    OpenPair {
        row: usize,
        column: usize,
    },
    // the first cell above 0 whose arc is not in force
    FlowOffArcs {
        direction: usize,
        from: usize,
        to: usize,
    },
    // the lowest column or row out of balance
    OutOfBalance {
        direction: usize,
        segment: usize,
    },
    NotGreatest {
        direction: usize,
    },
}

impl From<Refusal> for Naming {
    ghost from_gives = { λ refusal named. named ≡ naming refusal };

    fn from(refusal: Refusal) -> Naming {
        match refusal {
            Refusal::NoDirection => Naming::new(6, 0, 0, 0),
            Refusal::NoSegment { number } => Naming::new(7, 0, number, 0),
            Refusal::Contradictory => Naming::new(8, 0, 0, 0),
            Refusal::ClosesCircle {
                direction,
                from,
                to,
            } => Naming::new(9, direction, from, to),
            Refusal::NotInForce {
                direction,
                from,
                to,
            } => Naming::new(10, direction, from, to),
            Refusal::GivenByShape {
                direction,
                from,
                to,
            } => Naming::new(11, direction, from, to),
            Refusal::WrongPoints => Naming::new(12, 0, 0, 0),
            Refusal::WrongCells => Naming::new(13, 0, 0, 0),
            Refusal::OpenPair { row, column } => Naming::new(14, 0, row, column),
            Refusal::FlowOffArcs {
                direction,
                from,
                to,
            } => Naming::new(15, direction, from, to),
            Refusal::OutOfBalance { direction, segment } => Naming::new(16, direction, segment, 0),
            Refusal::NotGreatest { direction } => Naming::new(17, direction, 0, 0),
        }
    }
}
