// Which nodes a walk leads to from a node, and whether it leads to one of them.
ghost use Rattle.std.specs.Prelude.{◌≡◌, ℕ, ◌<◌, length, is_some, Decides};
ghost use Rattle.propagation.specs.Engine.{at};
ghost use Rattle.propagation.specs.Kinds.{reach_meaning};
ghost use Rattle.propagation.specs.Subject.{Leads, ReachedFrom};

use crate::engine::propagate;
use crate::graph::{ConstraintGraph, MOST_NODES};
use crate::label::Label;
use crate::reach::Reach;
use crate::refusal::Refusal;

// Whether a walk of one or more arcs leads from one node to another; no for numbers that are no nodes.
pub fn reaches<G: ConstraintGraph>(graph: &G, from: usize, to: usize) -> bool
    ensures { Decides result (Leads (G.ConstraintGraph.size graph.now) (G.ConstraintGraph.gaps graph.now) from to) }
{
    let nodes = graph.nodes();
    if to >= nodes {
        return false;
    }
    // fixed memory: the board asks for none
    let mut memory = [Reach::NONE; MOST_NODES];
    let reached = &mut memory[0..nodes];
    reached_from(graph, from, reached).is_ok() && reached[to].yes
}

// Marks every node that a walk of one or more arcs leads to from a node.
pub fn reached_from<G: ConstraintGraph>(
    graph: &G,
    from: usize,
    reached: &mut [Reach],
) -> Result<(), Refusal>
    ensures { ReachedFrom (G.ConstraintGraph.size graph.now) (G.ConstraintGraph.gaps graph.now) from reached.old reached.new result }
{
    let nodes = graph.nodes();
    if reached.len() != nodes {
        return Err(Refusal::WrongMemory);
    }
    mark_heads(graph, from, reached);
    // fixed memory: the board asks for none
    let mut before = [Reach::NONE; MOST_NODES];
    propagate(graph, reached, &mut before[0..nodes])?;
    Ok(())
}

// Marks the nodes that an arc leads to from a node, and no others.
fn mark_heads<G: ConstraintGraph>(graph: &G, from: usize, reached: &mut [Reach])
    ensures { (v : ℕ) → v < length reached.old → (at reach_meaning reached.new v).yes ≡ is_some (G.ConstraintGraph.gaps graph.now from v) }
{
    for (node, mark) in reached.iter_mut().enumerate() {
        mark.yes = graph.gap(from, node).is_some();
    }
}
