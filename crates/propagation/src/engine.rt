// Rounds of labels: in each, every node sends its label along every arc.
ghost use Rattle.std.specs.Prelude.{◌≡◌, ℕ, ◌<◌, length};
ghost use Rattle.walks.specs.Rounds.{pulled};
ghost use Rattle.propagation.specs.Engine.{at, Propagates};

use crate::graph::ConstraintGraph;
use crate::label::Label;
use crate::refusal::Refusal;

// A node's old label, joined with what every node sends to it.
fn gathered<G: ConstraintGraph, L: Label>(graph: &G, old: &[L], to: usize) -> L
    requires one_label_a_node { length old.now ≡ G.ConstraintGraph.size graph.now }
    requires to_is_a_node { to < length old.now }
    ensures { result ≡ pulled L.Label.meaning (G.ConstraintGraph.gaps graph.now) (at L.Label.meaning old.now) to (length old.now) }
{
    let mut label = old[to];
    for (from, sent) in old.iter().enumerate() {
        if let Some(gap) = graph.gap(from, to) {
            label = label.join(sent.carry(gap));
        }
    }
    label
}

// One round, from the old labels to the new ones.
fn round<G: ConstraintGraph, L: Label>(graph: &G, old: &[L], new: &mut [L])
    requires one_label_a_node { length old.now ≡ G.ConstraintGraph.size graph.now }
    requires as_many_new { length new.old ≡ length old.now }
    ensures { (v : ℕ) → v < length old.now → at L.Label.meaning new.new v ≡ pulled L.Label.meaning (G.ConstraintGraph.gaps graph.now) (at L.Label.meaning old.now) v (length old.now) }
{
    for (node, label) in new.iter_mut().enumerate() {
        *label = gathered(graph, old, node);
    }
}

// Rounds until one changes no label, and as many as there are nodes at the most; says whether the last changed none.
// The first memory holds the start labels and then the newest; the second holds those of the round before.
pub fn propagate<G: ConstraintGraph, L: Label>(
    graph: &G,
    newest: &mut [L],
    before: &mut [L],
) -> Result<bool, Refusal>
    ensures { Propagates L.Label.meaning (G.ConstraintGraph.size graph.now) (G.ConstraintGraph.gaps graph.now) newest.old before.old newest.new before.new result }
{
    let nodes = graph.nodes();
    if newest.len() != nodes || before.len() != nodes {
        return Err(Refusal::WrongMemory);
    }
    // A loop, and no `any`: each round changes both memories, which a closure would hide.
    for _earlier in 0..nodes {
        before.copy_from_slice(newest);
        round(graph, before, newest);
        if *newest == *before {
            return Ok(true);
        }
    }
    Ok(false)
}
