// The whole text on a shape: its rows, its columns, and its own arcs across and up.
ghost use Rattle.std.specs.Prelude.{Some};
ghost use Rattle.std.specs.Fmt.{WritesOnOk};
ghost use Rattle.shape.specs.Directions.{direction_number};
ghost use Rattle.report.specs.Parts.{segment_lines, arc_lines, shape_text};

use crate::arc_text::arc_line;
use crate::lines::write_lines;
use crate::segment_text::segment_line;
use shape::direction::Direction;
use shape::source::ShapeSource;
use std::fmt;

// Rows, columns, arcs across, arcs up.
#[derive(Clone, Copy)]
pub struct ShapeText<'a, S> {
    pub source: &'a S,
}

impl<S: ShapeSource> fmt::Display for ShapeText<'_, S> {
    ghost output = { λ text. Some (shape_text (S.ShapeSource.shape text.source.now)) };

    fn fmt<W: fmt::Write>(&self, f: &mut fmt::Formatter<W>) -> fmt::Result {
        let source = self.source;
        write_segments(f, source, Direction::Up)?;
        write_segments(f, source, Direction::Across)?;
        write_arcs(f, source, Direction::Across)?;
        write_arcs(f, source, Direction::Up)
    }
}

// The rows or the columns, by their names in order.
fn write_segments<W: fmt::Write, S: ShapeSource>(
    f: &mut fmt::Formatter<W>,
    source: &S,
    direction: Direction,
) -> fmt::Result
    ensures { WritesOnOk W.Write.write_str_gives f.old result (segment_lines (S.ShapeSource.shape source.now) (direction_number direction)) f.new }
{
    let direction = usize::from(direction);
    write_lines(f, source, |name| segment_line(source, direction, name))
}

// The shape's own arcs, by the points that their wires begin at.
fn write_arcs<W: fmt::Write, S: ShapeSource>(
    f: &mut fmt::Formatter<W>,
    source: &S,
    direction: Direction,
) -> fmt::Result
    ensures { WritesOnOk W.Write.write_str_gives f.old result (arc_lines (S.ShapeSource.shape source.now) (direction_number direction)) f.new }
{
    let direction = usize::from(direction);
    write_lines(f, source, |point| arc_line(source, direction, point))
}
