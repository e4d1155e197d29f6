// Whether a flow is balanced at a segment.
ghost use Rattle.std.specs.Prelude.{◌≡◌, ℕ, suc, ◌≤◌, Decides};
ghost use Rattle.walks.specs.Sums.{sum};
ghost use Rattle.segments.specs.Shapes.{Shape, Lawful, Within};
ghost use Rattle.drawings.specs.Flows.{near_ends_of, far_ends_of, BalancedAt};
ghost use Rattle.shape.specs.Directions.{direction_number};
ghost use Rattle.logs.specs.Lines.{cell_of};
ghost use Rattle.board.specs.Cells.{bytes_in, points_in};

use super::Flow;
use segment_table::table::Segment;
use shape::direction::Direction;

impl Flow<'_> {
    // One cell for each point, as the closure tells them, added up.
    fn total<F: Fn(usize) -> u8>(&self, cell: F) -> usize
        requires { (v : ℕ) → Within (points_in self.now) v → F.pre cell v }
        ensures sum { (h : ℕ → ℕ) → ((v x : ℕ) → F.post cell v x → x ≡ h v) → result ≡ sum (points_in self.now) (λ i. h (suc i)) }
        ensures small { result ≤ 32640 }
    {
        (1..=self.board.segments.points())
            .map(
                |point| -> usize
                    requires { F.pre cell point }
                { usize::from(cell(point)) },
            )
            .sum()
    }

    // Whether what comes in, less what goes out, is the segment's far ends less its near ends.
    pub(super) fn is_balanced(&self, direction: Direction, number: usize, segment: &Segment) -> bool
        requires { Within (points_in self.now) number }
        ensures { (s : Shape) → Lawful s → s.points ≡ points_in self.now → segment.now.near_ends ≡ near_ends_of s (direction_number direction) number → segment.now.far_ends ≡ far_ends_of s (direction_number direction) number → Decides result (BalancedAt s (direction_number direction) (cell_of s.points (bytes_in self.now (direction_number direction))) number) }
    {
        let incoming = self.total(|from| self.cell(direction, from, number));
        let outgoing = self.total(|to| self.cell(direction, number, to));
        incoming.saturating_add(segment.near_ends) == outgoing.saturating_add(segment.far_ends)
    }
}
