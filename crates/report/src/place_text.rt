// The least coordinates over a shape's own arcs as text.
ghost use Rattle.std.specs.Prelude.{◌≡◌, ◌⊎◌, Some, pos, MatchOption, slice_index};
ghost use Rattle.std.specs.Fmt.{WritesOnOk};
ghost use Rattle.segments.specs.Shapes.{Point};
ghost use Rattle.constraints.specs.Least.{LeastOver, HasCircle};
ghost use Rattle.report.specs.Least.{place_line, point_line, point_lines, LeastText};
ghost use Rattle.report.specs.Lines.{least_text};

use crate::lines::write_lines;
use constraints::least::least_coordinates;
use shape::by_direction::ByDirection;
use shape::direction::Direction;
use shape::ends::{column_of, row_of};
use shape::source::{MOST_POINTS, ShapeSource};
use std::fmt;

// A shape's points at the least coordinates, or that the shape is contradictory.
#[derive(Clone, Copy)]
pub struct LeastPlaces<'a, S> {
    source: &'a S,
    coordinates: Option<Coordinates>,
}

// The coordinates of the columns and of the rows, each at its name less 1: of a fixed size, as they are handed out.
type Coordinates = ByDirection<[u16; MOST_POINTS]>;

#[derive(Clone, Copy)]
struct PointLine {
    point: usize,
    x: u16,
    y: u16,
}

// Each point at the least coordinates from 0 up that obey the shape's own arcs, or the word that the shape is contradictory.
pub fn least_text<S: ShapeSource>(source: &S) -> LeastPlaces<'_, S>
    ensures { LeastText (S.ShapeSource.shape source.now) (least_text S.ShapeSource.shape result) }
{
    LeastPlaces {
        source,
        coordinates: least(source),
    }
}

// The least from 0 up that obey the shape's own arcs; none where these have a circle.
fn least<S: ShapeSource>(source: &S) -> Option<Coordinates>
    ensures { MatchOption result (HasCircle (S.ShapeSource.shape source.now) 0 ⊎ HasCircle (S.ShapeSource.shape source.now) 1) (λ c. LeastOver (S.ShapeSource.shape source.now) 0 (λ v. pos (slice_index c.across v)) × LeastOver (S.ShapeSource.shape source.now) 1 (λ v. pos (slice_index c.up v))) }
{
    let across = least_coordinates(source, usize::from(Direction::Across))?;
    let up = least_coordinates(source, usize::from(Direction::Up))?;
    Some(ByDirection { across, up })
}

// The line of a point at the coordinates of its column and of its row.
fn line_of<S: ShapeSource>(source: &S, coordinates: &Coordinates, point: usize) -> Option<PointLine>
    ensures { MatchOption result (Point (S.ShapeSource.shape source.now) point → ⊥) (λ line. place_line line.point line.x line.y ≡ point_line (S.ShapeSource.shape source.now) coordinates.now.across coordinates.now.up point) }
{
    let column = column_of(source, point)?;
    let row = row_of(source, point)?;
    Some(PointLine {
        point,
        x: coordinates.across[column - 1],
        y: coordinates.up[row - 1],
    })
}

impl<S: ShapeSource> fmt::Display for LeastPlaces<'_, S> {
    ghost output = { λ places. Some (least_text S.ShapeSource.shape places) };

    fn fmt<W: fmt::Write>(&self, f: &mut fmt::Formatter<W>) -> fmt::Result {
        match &self.coordinates {
            Some(coordinates) => write_points(f, self.source, coordinates),
            None => writeln!(f, "contradictory"),
        }
    }
}

fn write_points<W: fmt::Write, S: ShapeSource>(
    f: &mut fmt::Formatter<W>,
    source: &S,
    coordinates: &Coordinates,
) -> fmt::Result
    ensures { WritesOnOk W.Write.write_str_gives f.old result (point_lines (S.ShapeSource.shape source.now) coordinates.now.across coordinates.now.up) f.new }
{
    write_lines(f, source, |point| line_of(source, coordinates, point))
}

impl fmt::Display for PointLine {
    ghost output = { λ line. Some (place_line line.point line.x line.y) };

    fn fmt<W: fmt::Write>(&self, f: &mut fmt::Formatter<W>) -> fmt::Result {
        let PointLine { point, x, y } = self;
        writeln!(f, "point {point} at {x} {y}")
    }
}
