// The points of a shape: how many there are, and going through them in order.
ghost use Rattle.std.specs.Prelude.{ℕ, ◌≤◌};
ghost use Rattle.segments.specs.Shapes.{Within};
ghost use Rattle.shape.specs.Checks.{FindsFirst};

// A number of points that a shape may have.
#[derive(Clone, Copy)]
pub(crate) struct PointCount {
    pub(crate) count: usize,
    ghost some: { 1 ≤ count },
    ghost few: { count ≤ 128 },
}

// The lowest of the points that pass a test.
pub(crate) fn first_point<F: Fn(usize) -> bool>(points: usize, test: F) -> Option<usize>
    requires { (v : ℕ) → Within points v → F.pre test v }
    ensures { FindsFirst points (λ v r. F.post test v r) result }
{
    (1..=points).find(
        |point| -> bool
            requires { F.pre test point.now }
        { test(*point) },
    )
}
