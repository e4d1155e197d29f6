// A row or a column as a line of text.
ghost use Rattle.std.specs.Prelude.{◌≡◌, Some, MatchOption};
ghost use Rattle.segments.specs.Segments.{Named, chain};
ghost use Rattle.shape.specs.Directions.{direction_number, side_number};
ghost use Rattle.report.specs.Texts.{spaced, segment_word, segment_line};
ghost use Rattle.report.specs.Lines.{segment_text};

use shape::direction::{Direction, Side};
use shape::ends::{last_point, segment_of};
use shape::source::ShapeSource;
use std::fmt;

// A row or a column, by its name and its other end.
#[derive(Clone, Copy)]
pub struct SegmentLine<'a, S> {
    source: &'a S,
    direction: Direction,
    name: usize,
    end: usize,
}

// The line of the row or column of that name; none where the number names none.
pub fn segment_line<S: ShapeSource>(
    source: &S,
    direction: usize,
    name: usize,
) -> Option<SegmentLine<'_, S>>
    ensures { MatchOption result (Named (S.ShapeSource.shape source.now) direction name → ⊥) (λ line. Named (S.ShapeSource.shape source.now) direction name × (segment_text S.ShapeSource.shape line ≡ segment_line (S.ShapeSource.shape source.now) direction name)) }
{
    let direction = Direction::try_from(direction).ok()?;
    let segment = segment_of(source, usize::from(direction), name)?;
    if segment != name {
        return None;
    }
    let end = last_point(source, name, usize::from(direction.far_end()))?;
    Some(SegmentLine {
        source,
        direction,
        name,
        end,
    })
}

impl<S: ShapeSource> fmt::Display for SegmentLine<'_, S> {
    ghost output = { λ line. Some (segment_text S.ShapeSource.shape line) };

    fn fmt<W: fmt::Write>(&self, f: &mut fmt::Formatter<W>) -> fmt::Result {
        let SegmentLine {
            source,
            direction,
            name,
            end,
        } = *self;
        let word = segment_word(direction);
        let points = Chain {
            source,
            side: direction.far_end(),
            point: name,
        };
        writeln!(f, "{word} {name}:{points}, ends {name} and {end}")
    }
}

// A word beside the direction's own, which prints as `across` or `up`.
fn segment_word(direction: Direction) -> &'static str
    ensures { result.now ≡ segment_word (direction_number direction) }
{
    match direction {
        Direction::Across => "column",
        Direction::Up => "row",
    }
}

// The points of the chain from a point to a side, each after a space.
#[derive(Clone, Copy)]
struct Chain<'a, S> {
    source: &'a S,
    side: Side,
    point: usize,
}

impl<S: ShapeSource> fmt::Display for Chain<'_, S> {
    ghost output = { λ c. Some (spaced (chain (S.ShapeSource.shape c.source.now) (side_number c.side) c.point)) };

    fn fmt<W: fmt::Write>(&self, f: &mut fmt::Formatter<W>) -> fmt::Result {
        let mut at = self.point;
        write!(f, " {at}")?;
        while let Some(next) = self.source.beside(at, self.side) {
            at = next;
            write!(f, " {at}")?;
        }
        Ok(())
    }
}
