// What a table of arcs tells as a graph, and how its arcs are set and cleared.
ghost use Rattle.std.specs.Prelude.{◌≡◌, ℕ, ◌≤◌, pos, Some, None, MatchOption};
ghost use Rattle.std.specs.Bool.{then_some};
ghost use Rattle.propagation.specs.Keeping.{table_bounds};
ghost use Rattle.propagation.specs.Tables.{arc_gaps, Put};

use super::ArcTable;
use crate::graph::{ConstraintGraph, MOST_NODES};

impl ArcTable {
    // A table without arcs; none where the number of nodes is not 1 to 128.
    pub fn new(nodes: usize) -> Option<ArcTable>
        ensures { MatchOption result ((1 ≤ nodes) × (nodes ≤ 128) → ⊥) (λ t. (t.nodes ≡ nodes) × ((a b : ℕ) → arc_gaps t a b ≡ None)) }
    {
        if nodes == 0 || nodes > MOST_NODES {
            return None;
        }
        Some(ArcTable {
            nodes,
            arcs: [false; MOST_NODES * MOST_NODES],
        })
    }

    // Two names for `put`, since its flag would not show at a call what it means.
    // An arc of gap 1 from one node to another; other numbers change nothing.
    pub fn set(&mut self, from: usize, to: usize)
        ensures { Put self.old self.new from to (Some (pos 1)) }
    {
        self.put(from, to, true);
    }

    // No arc from one node to another; other numbers change nothing.
    pub fn clear(&mut self, from: usize, to: usize)
        ensures { Put self.old self.new from to None }
    {
        self.put(from, to, false);
    }

    // An arc of gap 1 from one node to another, or none; other numbers change nothing.
    pub fn put(&mut self, from: usize, to: usize, arc: bool)
        ensures { Put self.old self.new from to (then_some arc (pos 1)) }
    {
        if from < self.nodes && to < self.nodes {
            self.arcs[from * MOST_NODES + to] = arc;
        }
    }
}

impl ConstraintGraph for ArcTable {
    ghost size = { λ t. t.nodes };

    ghost gaps = { arc_gaps };

    ghost bounds = { table_bounds };

    fn nodes(&self) -> usize {
        self.nodes
    }

    fn gap(&self, from: usize, to: usize) -> Option<i8> {
        (from < self.nodes && to < self.nodes && self.arcs[from * MOST_NODES + to]).then_some(1)
    }
}
