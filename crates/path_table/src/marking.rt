// The paths of a table of arcs, by the engine: one run for each node.
ghost use Rattle.std.specs.Prelude.{◌≡◌, true, length};
ghost use Rattle.propagation.specs.Engine.{at};
ghost use Rattle.propagation.specs.Kinds.{reach_meaning};
ghost use Rattle.propagation.specs.Subject.{Leads};
ghost use Rattle.propagation.specs.Tables.{arc_gaps};
ghost use Rattle.path_table.specs.Changes.{RowPut, Closed};

use propagation::arc_table::ArcTable;
use propagation::graph::{ConstraintGraph, MOST_NODES};
use propagation::label::Label;
use propagation::reach::Reach;
use propagation::reaching::reached_from;

// The arcs out of a node become the marks.
fn write_row(paths: &mut ArcTable, from: usize, reached: &[Reach])
    ensures { RowPut paths.old paths.new from (length reached.now) (λ v. (at reach_meaning reached.now v).yes ≡ true) }
{
    for (to, reach) in reached.iter().enumerate() {
        paths.put(from, to, reach.yes);
    }
}

// The arcs out of a node become the walks from it.
fn write_row_of(force: &ArcTable, paths: &mut ArcTable, from: usize)
    ensures { RowPut paths.old paths.new from force.now.nodes (λ v. Leads force.now.nodes (arc_gaps force.now) from v) }
{
    let nodes = force.nodes();
    // A fixed table: the board asks for no memory.
    let mut reached = [Reach::NONE; MOST_NODES];
    let marked = &mut reached[..nodes];
    if reached_from(force, from, marked).is_ok() {
        write_row(paths, from, marked);
    }
}

// The arcs between nodes become the walks.
pub(crate) fn write_paths(force: &ArcTable, paths: &mut ArcTable)
    ensures { Closed force.now.nodes (arc_gaps force.now) paths.old paths.new }
{
    for from in 0..force.nodes() {
        write_row_of(force, paths, from);
    }
}
