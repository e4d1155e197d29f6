// What a slope tells as a graph.
ghost use Rattle.engine_trials.specs.Slopes.{slope_gaps, slope_bounds};

use super::Slope;
use propagation::graph::{ConstraintGraph, MOST_NODES};

impl Slope {
    // None for other than 1 to 128 nodes and a gap of -100 to 100.
    pub(crate) fn new(nodes: usize, gap: i8) -> Option<Slope> {
        if (1..=MOST_NODES).contains(&nodes) && (-100..=100).contains(&gap) {
            Some(Slope { nodes, gap })
        } else {
            None
        }
    }
}

impl ConstraintGraph for Slope {
    ghost size = { λ s. s.nodes };

    ghost gaps = { slope_gaps };

    ghost bounds = { slope_bounds };

    fn nodes(&self) -> usize {
        self.nodes
    }

    fn gap(&self, from: usize, to: usize) -> Option<i8> {
        (from < to && to < self.nodes && to - from == 1).then_some(self.gap)
    }
}
