// A table of arcs between up to 128 nodes.
ghost use Rattle.std.specs.Prelude.{◌≤◌};

use crate::graph::MOST_NODES;

mod arcs;

// A fixed table, of which the nodes use a part: the board asks for no memory.
#[derive(Clone, Copy)]
pub struct ArcTable {
    nodes: usize,
    // A row for each node: whether there is an arc from it to each. One array and no array of rows: where a place in a row
    // is written, nothing tells a proof how long the row is, and the contract of `put` does not close.
    arcs: [bool; MOST_NODES * MOST_NODES],
    ghost one_or_more: { 1 ≤ nodes },
    ghost at_most_128: { nodes ≤ 128 },
}
