// The bytes of a shape file after its header, in one of the formats.
ghost use Rattle.std.specs.Prelude.{◌≡◌, ℕ, ◌≤◌, List, Decides, MatchOption, MatchResult};
ghost use Rattle.segments.specs.Shapes.{Within};
ghost use Rattle.shape.specs.Directions.{direction_number};
ghost use Rattle.shape.specs.Formats.{Format, TooHigh, Taken, TellsWire, Nowhere, Lowest, Flawed, Tabled};
ghost use Rattle.shape.specs.Tables.{of_links};
ghost use Rattle.shape.specs.declared.points.PointCount.{PointCount};

use crate::direction::Direction;
use crate::links::Links;
use crate::points::{PointCount, first_point};
use crate::refusal::Refusal;
use crate::wires::filled;

// What they tell of the points, which are asked for as they are counted.
pub(crate) trait Body {
    ghost format: { Format };

    ghost count: { Self → PointCount };

    ghost bytes: { Self → List ℕ };

    fn points(&self) -> PointCount
        ensures { result ≡ count self.now };

    // Whether a point tells a number that is too high.
    fn is_too_high(&self, point: usize) -> bool
        requires { Within (count self.now).count point }
        ensures { Decides result (TooHigh format (count self.now).count (bytes self.now) point) };

    // The lowest point that tells what a lower point tells.
    fn first_taken(&self) -> Option<usize>
        ensures { MatchOption result (Nowhere (count self.now).count (Taken format (count self.now).count (bytes self.now))) (Lowest (count self.now).count (Taken format (count self.now).count (bytes self.now))) };

    // The point that its wire in a direction leads to, if the wire ends.
    fn next(&self, point: usize, direction: Direction) -> Result<Option<usize>, Refusal>
        requires point { Within (count self.now).count point }
        requires range { Nowhere (count self.now).count (TooHigh format (count self.now).count (bytes self.now)) }
        ensures { TellsWire format (count self.now).count (bytes self.now) (direction_number direction) point result };
}

// The lowest point that tells a number that is too high.
fn first_too_high<B: Body>(body: &B) -> Option<usize>
    ensures { MatchOption result (Nowhere (B.count body.now).count (TooHigh B.format (B.count body.now).count (B.bytes body.now))) (Lowest (B.count body.now).count (TooHigh B.format (B.count body.now).count (B.bytes body.now))) }
{
    first_point(body.points().count, |point| body.is_too_high(point))
}

// The checks before any wire is followed. Each goes over all points before the next, and the first that fails names the lowest point at fault.
fn check<B: Body>(body: &B) -> Result<(), Refusal>
    ensures { MatchResult result (λ _. Nowhere (B.count body.now).count (TooHigh B.format (B.count body.now).count (B.bytes body.now)) × Nowhere (B.count body.now).count (Taken B.format (B.count body.now).count (B.bytes body.now))) (Flawed B.format (B.count body.now).count (B.bytes body.now)) }
{
    if let Some(point) = first_too_high(body) {
        return Err(Refusal::OutOfRange { point });
    }
    if let Some(point) = body.first_taken() {
        return Err(Refusal::Repeated { point });
    }
    Ok(())
}

// The table of the wires that a body tells, if no point is at fault.
pub(crate) fn tabled<B: Body>(body: &B) -> Result<Links, Refusal>
    ensures { MatchResult result (λ l. Tabled B.format (B.count body.now).count (B.bytes body.now) (of_links l)) (Flawed B.format (B.count body.now).count (B.bytes body.now)) }
{
    check(body)?;
    filled(body.points(), |point, direction| {
        body.next(point, direction)
    })
}
