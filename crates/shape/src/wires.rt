// Filling a table of neighbours wire by wire.
ghost use Rattle.std.specs.Prelude.{◌≡◌, ℕ, ◌*◌, ◌≤◌, Some, Ok, MatchResult};
ghost use Rattle.segments.specs.Shapes.{Within};
ghost use Rattle.shape.specs.declared.direction.Direction.{Direction};
ghost use Rattle.shape.specs.Tables.{Filled, LeadsBy, FailsFirst};

use crate::direction::Direction;
use crate::links::Links;
use crate::points::PointCount;

// The table of the wires that a closure tells, each asked for at its left or lower end, or the first failure that it tells.
pub(crate) fn filled<E, F: Fn(usize, Direction) -> Result<Option<usize>, E>>(
    points: PointCount,
    wire: F,
) -> Result<Links, E>
    requires callable { (v : ℕ) (d : Direction) → Within points.count v → F.pre wire v d }
    requires to_points { (v w : ℕ) (d : Direction) → Within points.count v → F.post wire v d (Ok (Some w)) → Within points.count w }
    requires apart { (v u w : ℕ) (d : Direction) → Within points.count v → Within points.count u → F.post wire v d (Ok (Some w)) → F.post wire u d (Ok (Some w)) → v ≡ u }
    ensures { MatchResult result (λ l. Filled (LeadsBy (λ v d o. F.post wire v d (Ok o))) points.count (points.count * 2) l) (FailsFirst points.count (λ v d r. F.post wire v d r)) }
{
    let count = points.count;
    let mut links = Links::unjoined(points);
    for point in 1..=count {
        for direction in [Direction::Across, Direction::Up] {
            if let Some(next) = wire(point, direction)? {
                links.join(direction, point, next);
            }
        }
    }
    Ok(links)
}
