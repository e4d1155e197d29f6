// The longest places from 0: how far the gaps push each node up.
ghost use Rattle.std.specs.Prelude.{◌≡◌, ℕ, ◌<◌, length, pos, Some};
ghost use Rattle.propagation.specs.Kinds.{place_meaning};
ghost use Rattle.propagation.specs.Engine.{at};
ghost use Rattle.propagation.specs.Subject.{LongestPlaces};

use crate::engine::propagate;
use crate::graph::{ConstraintGraph, MOST_NODES};
use crate::label::Label;
use crate::place::Place;
use crate::refusal::Refusal;

// The least coordinates from 0 up that satisfy every gap, or the answer that there are none.
pub fn longest_places<G: ConstraintGraph>(graph: &G, places: &mut [Place]) -> Result<bool, Refusal>
    ensures { LongestPlaces (G.ConstraintGraph.size graph.now) (G.ConstraintGraph.gaps graph.now) places.old places.new result }
{
    let nodes = graph.nodes();
    if places.len() != nodes {
        return Err(Refusal::WrongMemory);
    }
    start_at_zero(places);
    // fixed memory: the board asks for none
    let mut before = [Place::NONE; MOST_NODES];
    propagate(graph, places, &mut before[0..nodes])
}

// A loop, and no `fill`: after that one the compiler tests at each gap of the engine's rounds that the node is one.
fn start_at_zero(places: &mut [Place])
    ensures long { length places.new ≡ length places.old }
    ensures zero { (v : ℕ) → v < length places.old → (at place_meaning places.new v).at ≡ Some (pos 0) }
{
    for place in places.iter_mut() {
        *place = Place::new(0);
    }
}
