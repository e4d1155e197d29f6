// The paths that one arc more gives: from what leads to its beginning to what its end leads to.
ghost use Rattle.std.specs.Prelude.{◌≡◌, ℕ, ◌<◌, true, false, ◌⊎◌, Decides, slice_index_or};
ghost use Rattle.walks.specs.Nodes.{Arc};
ghost use Rattle.propagation.specs.Tables.{arc_gaps};
ghost use Rattle.path_table.specs.Changes.{Widened};

use propagation::arc_table::ArcTable;
use propagation::graph::{ConstraintGraph, MOST_NODES};
use std::array;

// Whether two nodes are one, or an arc leads from the first to the second.
fn is_or_leads(paths: &ArcTable, from: usize, to: usize) -> bool
    ensures { Decides result ((from ≡ to) ⊎ Arc (arc_gaps paths.now) from to) }
{
    from == to || paths.gap(from, to).is_some()
}

// An arc from a node to each that is marked.
fn join_row(paths: &mut ArcTable, from: usize, beyond: &[bool; MOST_NODES])
    ensures { Widened paths.old paths.new (λ u v. (u ≡ from) × (slice_index_or beyond.now v false ≡ true)) }
{
    for (to, marked) in beyond.iter().enumerate() {
        if *marked {
            paths.set(from, to);
        }
    }
}

// An arc from each node that is marked before to each that is marked beyond.
fn join_rows(paths: &mut ArcTable, before: &[bool; MOST_NODES], beyond: &[bool; MOST_NODES])
    ensures { Widened paths.old paths.new (λ u v. (slice_index_or before.now u false ≡ true) × (slice_index_or beyond.now v false ≡ true)) }
{
    for (from, marked) in before.iter().enumerate() {
        if *marked {
            join_row(paths, from, beyond);
        }
    }
}

// An arc from each node that is the one node or leads to it, to each that is the other or that it leads to.
pub(crate) fn join_through(paths: &mut ArcTable, from: usize, to: usize)
    ensures { Widened paths.old paths.new (λ u v. ((u ≡ from) ⊎ Arc (arc_gaps paths.old) u from) × ((to ≡ v) ⊎ Arc (arc_gaps paths.old) to v)) }
{
    // The marks are fixed tables: the board asks for no memory.
    let before: [bool; MOST_NODES] = array::from_fn(|node| is_or_leads(paths, node, from));
    let beyond: [bool; MOST_NODES] = array::from_fn(|node| is_or_leads(paths, to, node));
    join_rows(paths, &before, &beyond);
}
