// The number of points that a shape file begins with, and the length that it asks for.
ghost use Rattle.std.specs.Prelude.{◌≡◌, ℕ, ◌*◌, ◌<◌, ◌≤◌, ◌⊎◌, length, MatchResult, ◌≢◌};
ghost use Rattle.shape.specs.declared.refusal.Refusal.TheVariants.{WrongSize};

use crate::points::PointCount;
use crate::refusal::Refusal;
use crate::source::MOST_POINTS;

// The number of points, where the bytes after the header are as many as they need.
pub(crate) fn sized(points: u8, body: &[u8], bytes_a_point: usize) -> Result<PointCount, Refusal>
    requires { bytes_a_point ≤ 3 }
    ensures { MatchResult result (λ n. (n.count ≡ points) × (length body.now ≡ bytes_a_point * points)) (λ e. (e ≡ WrongSize) × ((points ≡ 0) ⊎ ((128 < points) ⊎ (length body.now ≢ bytes_a_point * points)))) }
{
    let count = usize::from(points);
    if count == 0 || count > MOST_POINTS || body.len() != bytes_a_point * count {
        return Err(Refusal::WrongSize);
    }
    Ok(PointCount { count })
}
