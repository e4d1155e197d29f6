// A flow layer over any graph: where a cell is above 0 and no arc leads back, minus the arc's gap leads back.
ghost use Rattle.std.specs.Prelude.{◌≡◌, ◌<◌};
ghost use Rattle.walks.specs.Flows.{layer};
ghost use Rattle.propagation.specs.Keeping.{layer_bounds};
ghost use Rattle.propagation.specs.Layers.{cell};

use crate::graph::ConstraintGraph;

#[derive(Drop)]
pub struct FlowLayer<'g, 'c, G: ConstraintGraph> {
    below: &'g G,
    // n rows of n bytes for n nodes; a byte that is not there counts as 0
    cells: &'c [u8],
}

impl<'g, 'c, G: ConstraintGraph> FlowLayer<'g, 'c, G> {
    pub fn new(below: &'g G, cells: &'c [u8]) -> FlowLayer<'g, 'c, G>
        ensures stands_over { result.below.now ≡ below.now }
        ensures holds { result.cells.now ≡ cells.now }
    {
        FlowLayer { below, cells }
    }

    // The cell from one node to another; 0 for numbers that are no nodes.
    fn cell(&self, from: usize, to: usize) -> u8
        ensures nodes { from < G.ConstraintGraph.size self.now.below.now → to < G.ConstraintGraph.size self.now.below.now → result ≡ cell (G.ConstraintGraph.size self.now.below.now) self.now.cells.now from to }
        ensures others { ((from < G.ConstraintGraph.size self.now.below.now) × (to < G.ConstraintGraph.size self.now.below.now) → ⊥) → result ≡ 0 }
    {
        let nodes = self.below.nodes();
        if from >= nodes || to >= nodes {
            return 0;
        }
        self.cells.get(from * nodes + to).copied().unwrap_or(0)
    }
}

impl<'g, 'c, G: ConstraintGraph> ConstraintGraph for FlowLayer<'g, 'c, G> {
    ghost size = { λ l. G.ConstraintGraph.size l.below.now };

    ghost gaps = { λ l. layer (G.ConstraintGraph.gaps l.below.now) (cell (G.ConstraintGraph.size l.below.now) l.cells.now) };

    ghost bounds = { layer_bounds G.ConstraintGraph.bounds (λ l. l.below.now) (λ l. l.cells.now) };

    fn nodes(&self) -> usize {
        self.below.nodes()
    }

    fn gap(&self, from: usize, to: usize) -> Option<i8> {
        let own = self.below.gap(from, to);
        if own.is_some() || self.cell(to, from) == 0 {
            return own;
        }
        let back = self.below.gap(to, from)?;
        Some(-back)
    }
}
