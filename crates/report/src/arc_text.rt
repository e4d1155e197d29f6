// The arc of a wire as a line of text.
ghost use Rattle.std.specs.Prelude.{◌≡◌, List, Some, MatchOption};
ghost use Rattle.segments.specs.Segments.{Wire};
ghost use Rattle.report.specs.Texts.{arc_line};
ghost use Rattle.report.specs.Lines.{arc_text};

use shape::direction::Direction;
use shape::ends::{Arc, own_arc};
use shape::source::ShapeSource;
use std::fmt;

// An arc, and the wire that gives it.
#[derive(Clone, Copy)]
pub struct ArcLine {
    direction: Direction,
    arc: Arc,
    point: usize,
    next: usize,
}

// The line of the arc that the wire from a point gives; none where no wire of that direction begins there.
pub fn arc_line<S: ShapeSource>(source: &S, direction: usize, point: usize) -> Option<ArcLine>
    ensures { MatchOption result (Wire (S.ShapeSource.shape source.now) direction point → ⊥) (λ line. Wire (S.ShapeSource.shape source.now) direction point × (arc_text line ≡ arc_line (S.ShapeSource.shape source.now) direction point)) }
{
    let direction = Direction::try_from(direction).ok()?;
    let arc = own_arc(source, usize::from(direction), point)?;
    let next = source.beside(point, direction.ahead())?;
    Some(ArcLine {
        direction,
        arc,
        point,
        next,
    })
}

impl fmt::Display for ArcLine {
    ghost output = { λ line. Some (arc_text line) };

    fn fmt<W: fmt::Write>(&self, f: &mut fmt::Formatter<W>) -> fmt::Result {
        let ArcLine {
            direction,
            arc: Arc { from, to },
            point,
            next,
        } = *self;
        writeln!(f, "{direction} {from} -> {to}: wire {point} {next}")
    }
}
