// The arcs of one direction: those that the shape gives, those in force, and the paths along those.
ghost use Rattle.std.specs.Prelude.{◌≡◌, ℕ, ◌+◌, ◌<◌, ◌≤◌, T, Decides, MatchOption};
ghost use Rattle.segments.specs.Shapes.{Within};
ghost use Rattle.drawings.specs.Arcs.{Path};
ghost use Rattle.path_table.specs.Joined.{joined, PathsOf};

use crate::closing::join_through;
use crate::marking::write_paths;
use constraints::own_arcs::own_arcs;
use propagation::arc_table::ArcTable;
use propagation::graph::ConstraintGraph;
use shape::source::ShapeSource;

// Segments go by their names, from 1. Each is the node one below it.
#[derive(Drop)]
pub struct DirectionArcs {
    own: ArcTable,
    force: ArcTable,
    // from each segment to each that a path of one or more arcs in force leads to
    paths: ArcTable,
    ghost one_size: { own.nodes ≡ force.nodes },
    // the paths are those of the arcs in force
    ghost tracks: { ∥ PathsOf force paths ∥₁ },
}

// The node of the segment of a name, if there is one.
fn node_of(table: &ArcTable, name: usize) -> Option<usize>
    ensures { MatchOption result (Within table.now.nodes name → ⊥) (λ node. (name ≡ node + 1) × (node < table.now.nodes)) }
{
    name.checked_sub(1).filter(|node| *node < table.nodes())
}

// The nodes of the segments named a and b, if there are both.
fn nodes_of(table: &ArcTable, a: usize, b: usize) -> Option<(usize, usize)>
    ensures { MatchOption result (Within table.now.nodes a × Within table.now.nodes b → ⊥) (λ p. (a ≡ p.0 + 1) × (b ≡ p.1 + 1) × (p.0 < table.now.nodes) × (p.1 < table.now.nodes)) }
{
    node_of(table, a).zip(node_of(table, b))
}

// Whether the table has an arc from the segment named a to the segment named b.
fn is_joined(table: &ArcTable, a: usize, b: usize) -> bool
    ensures { result ≡ joined table.now a b }
{
    nodes_of(table, a, b).is_some_and(|(from, to)| table.gap(from, to).is_some())
}

impl DirectionArcs {
    ghost use Rattle.path_table.specs.Tracks.{OfShape, Added, Struck};

    // The shape's own arcs are in force; none for a direction above 1.
    pub fn of<S: ShapeSource>(source: &S, direction: usize) -> Option<DirectionArcs>
        ensures { MatchOption result (direction ≤ 1 → ⊥) (λ t. (direction ≤ 1) × OfShape (S.ShapeSource.shape source.now) direction t) }
    {
        let own = own_arcs(source, direction)?;
        let force = own;
        let mut paths = own;
        write_paths(&force, &mut paths);
        Some(DirectionArcs { own, force, paths })
    }

    // Whether the shape gives an arc from a to b.
    pub fn is_own(&self, a: usize, b: usize) -> bool
        ensures { result ≡ joined self.now.own a b }
    {
        is_joined(&self.own, a, b)
    }

    // Whether an arc from a to b is in force.
    pub fn has(&self, a: usize, b: usize) -> bool
        ensures { result ≡ joined self.now.force a b }
    {
        is_joined(&self.force, a, b)
    }

    // Whether a path leads from a to b.
    pub fn reaches(&self, a: usize, b: usize) -> bool
        ensures { Decides result (Path (λ x y. T (joined self.now.force x y)) a b) }
    {
        is_joined(&self.paths, a, b)
    }

    // An arc from a to b comes into force; numbers that are no segments change nothing.
    pub fn add(&mut self, a: usize, b: usize)
        ensures { Added self.old self.new a b }
    {
        if let Some((from, to)) = nodes_of(&self.force, a, b) {
            self.force.set(from, to);
            join_through(&mut self.paths, from, to);
        }
    }

    // An arc from a to b is no longer in force.
    pub fn strike(&mut self, a: usize, b: usize)
        ensures { Struck self.old self.new a b }
    {
        if let Some((from, to)) = nodes_of(&self.force, a, b) {
            self.force.clear(from, to);
            write_paths(&self.force, &mut self.paths);
        }
    }

    // The arcs in force, as a constraint graph.
    pub fn graph(&self) -> &ArcTable
        ensures { result.now ≡ self.now.force }
    {
        &self.force
    }

    // Whether a path leads from some segment back to it.
    pub fn closes_circle(&self) -> bool
        ensures { Decides result ((a : ℕ) × Path (λ x y. T (joined self.now.force x y)) a a) }
    {
        (1..=self.force.nodes()).any(|name| self.reaches(name, name))
    }
}
