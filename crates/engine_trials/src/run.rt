// One run of the engine over places, with what it answered and what it left.
use propagation::engine::propagate;
use propagation::graph::{ConstraintGraph, MOST_NODES};
use propagation::label::Label;
use propagation::place::Place;
use propagation::refusal::Refusal;
use std::fmt;

#[derive(Clone, Copy)]
pub(crate) struct Run {
    answer: Result<bool, Refusal>,
    // whether the two memories hold the same labels
    alike: bool,
    first: Coordinates,
    last: Coordinates,
}

// A node's coordinate in the first memory and in the second.
#[derive(Clone, Copy)]
struct Coordinates {
    newest: Option<i16>,
    before: Option<i16>,
}

impl Run {
    // The first node starts from one label and all others from another; what the second memory holds must have no influence.
    pub(crate) fn from<G: ConstraintGraph>(graph: &G, first: Place, others: Place) -> Run {
        let nodes = graph.nodes();
        // fixed memory, here and below: a trial asks for none
        let mut newest = [others; MOST_NODES];
        newest[0] = first;
        let mut before = [Place::new(7); MOST_NODES];
        Run::over(graph, &mut newest[..nodes], &mut before[..nodes])
    }

    // With a second memory that is one label too long.
    pub(crate) fn misfit<G: ConstraintGraph>(graph: &G, start: Place) -> Run {
        let nodes = graph.nodes();
        let mut newest = [start; MOST_NODES];
        let mut before = [Place::new(7); MOST_NODES + 1];
        Run::over(graph, &mut newest[..nodes], &mut before[..=nodes])
    }

    fn over<G: ConstraintGraph>(graph: &G, newest: &mut [Place], before: &mut [Place]) -> Run {
        let answer = propagate(graph, newest, before);
        Run {
            answer,
            alike: *newest == *before,
            first: Coordinates::of(newest.first(), before.first()),
            last: Coordinates::of(newest.last(), before.last()),
        }
    }
}

impl Coordinates {
    fn of(newest: Option<&Place>, before: Option<&Place>) -> Coordinates {
        Coordinates {
            newest: coordinate(newest),
            before: coordinate(before),
        }
    }
}

fn coordinate(place: Option<&Place>) -> Option<i16> {
    place?.coordinate()
}

// The answer, whether the memories are alike, and both coordinates of the first and of the last node.
impl fmt::Display for Run {
    fn fmt<W: fmt::Write>(&self, f: &mut fmt::Formatter<W>) -> fmt::Result {
        match self.answer {
            Ok(true) => write!(f, "settled")?,
            Ok(false) => write!(f, "not settled")?,
            Err(refusal) => write!(f, "refused, {}", usize::from(refusal))?,
        }
        write!(
            f,
            "\n  memories alike: {}; first {:?}, {:?}; last {:?}, {:?}",
            self.alike, self.first.newest, self.first.before, self.last.newest, self.last.before
        )
    }
}
