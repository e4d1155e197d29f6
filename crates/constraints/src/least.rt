// The least coordinates over a shape's own arcs, and over any constraint graph.
ghost use Rattle.std.specs.Prelude.{◌≡◌, ℕ, ◌<◌, ◌≤◌, pos, MatchOption, slice_index, unsigned_abs};
ghost use Rattle.walks.specs.Places.{Least, GainingCircuit};
ghost use Rattle.propagation.specs.Subject.{coordinate};
ghost use Rattle.constraints.specs.Least.{LeastOver, HasCircle};

use crate::own_arcs::own_arcs;
use propagation::graph::{ConstraintGraph, MOST_NODES};
use propagation::label::Label;
use propagation::longest::longest_places;
use propagation::place::Place;
use shape::source::ShapeSource;

// The least coordinates from 0 up of the segments of a direction that obey the shape's own arcs:
// that of the segment named a stands at a - 1. None where the arcs have a circle, and for a direction above 1.
pub fn least_coordinates<S: ShapeSource>(source: &S, direction: usize) -> Option<[u16; MOST_NODES]>
    ensures { MatchOption result (direction ≤ 1 → HasCircle (S.ShapeSource.shape source.now) direction) (λ xs. (direction ≤ 1) × LeastOver (S.ShapeSource.shape source.now) direction (λ v. pos (slice_index xs v))) }
{
    let table = own_arcs(source, direction)?;
    least_over(&table)
}

// The places' coordinates as numbers from 0 up, which those of the least places are.
fn from_zero(places: &[Place; MOST_NODES]) -> [u16; MOST_NODES]
    ensures { (v : ℕ) → v < 128 → slice_index result v ≡ unsigned_abs (coordinate places.now v) }
{
    places.map(|place| place.coordinate().unwrap_or(0).unsigned_abs())
}

// The least coordinates from 0 up that satisfy every gap, by nodes. None where a circuit gains, so that there are none.
pub fn least_over<G: ConstraintGraph>(graph: &G) -> Option<[u16; MOST_NODES]>
    ensures { MatchOption result (GainingCircuit (G.ConstraintGraph.size graph.now) (G.ConstraintGraph.gaps graph.now)) (λ xs. Least (G.ConstraintGraph.size graph.now) (G.ConstraintGraph.gaps graph.now) (λ v. pos (slice_index xs v)) × ((v : ℕ) → v < G.ConstraintGraph.size graph.now → slice_index xs v ≤ 12800)) }
{
    let nodes = graph.nodes();
    // A fixed table: the board asks for no memory.
    let mut places = [Place::NONE; MOST_NODES];
    match longest_places(graph, &mut places[..nodes]) {
        Ok(true) => Some(from_zero(&places)),
        _ => None,
    }
}
