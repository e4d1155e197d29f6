// What a constraint graph tells: how many nodes it has, and the gap from one node to another.
ghost use Rattle.std.specs.Prelude.{◌≡◌, ℕ};
ghost use Rattle.walks.specs.Nodes.{Gaps};
ghost use Rattle.propagation.specs.Graphs.{Bounds};

pub const MOST_NODES: usize = 128;

pub trait ConstraintGraph {
    // The nodes are the numbers below it.
    ghost size: { Self → ℕ };

    // Where an arc leads from one node to another, its gap.
    ghost gaps: { Self → Gaps };

    fn nodes(&self) -> usize
        ensures { result ≡ size self.now };

    // None where a number is no node.
    fn gap(&self, from: usize, to: usize) -> Option<i8>
        ensures { result ≡ gaps self.now from to };

    ghost bounds: { Bounds size gaps };
}
