// Theorems on the chains of a shape. Each function answers a number, and its contract is the theorem.
#![tactic(auto)]

ghost use Rattle.std.specs.Prelude.{◌≡◌, ℕ};
ghost use Rattle.segments.specs.Shapes.{Shape, Lawful, Point, steps};

// How many steps to one side can be taken from a point, the one past the end too: as many as there are points.
pub fn longest_chain(points: usize) -> usize
    ensures { (s : Shape) → Lawful s → s.points ≡ points → (d v : ℕ) → Point s v → steps s d result v ≡ 0 }
{
    points
}
