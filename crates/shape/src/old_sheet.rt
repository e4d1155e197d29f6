// An old sheet: for each point its spot and whether it is joined to the right and above.
ghost use Rattle.std.specs.Prelude.{◌≡◌, ℕ, ◌*◌, ◌≤◌, length, Decides, refl, MatchOption};
ghost use Rattle.segments.specs.Shapes.{Within};
ghost use Rattle.shape.specs.Directions.{direction_number};
ghost use Rattle.shape.specs.Formats.{coordinate, joins, Joins, Beyond, Nearest, SharesSpot, Taken};
ghost use Rattle.shape.specs.Formats.Format.{old_sheet};

use crate::body::{Body, tabled};
use crate::direction::Direction;
use crate::format::FileFormat;
use crate::links::Links;
use crate::points::{PointCount, first_point};
use crate::refusal::Refusal;
use crate::shape_table::ShapeTable;

pub type OldSheet = ShapeTable<SheetFormat>;

#[derive(Clone, Copy)]
pub struct SheetFormat;

impl FileFormat for SheetFormat {
    ghost format = { old_sheet };

    ghost BYTES_A_POINT = { 3 };

    ghost its_bytes = { refl };

    const BYTES_A_POINT: usize = 3;

    // By a rule of the project: one pattern takes the file apart.
    fn parts(file: &[u8]) -> Option<(u8, &[u8])> {
        match file {
            [b'O', points, body @ ..] => Some((*points, body)),
            _ => None,
        }
    }

    fn table(points: PointCount, bytes: &[u8]) -> Result<Links, Refusal> {
        tabled(&Spots { points, bytes })
    }
}

#[derive(Clone, Copy)]
struct Spots<'a> {
    points: PointCount,
    bytes: &'a [u8],
    ghost long: { length bytes.now ≡ 3 * points.count },
}

// Points are asked for as they are counted: a type for a point of the body would be made and taken apart at each question.
impl Spots<'_> {
    // A point's coordinate in a direction: x across, y up.
    fn at(&self, point: usize, direction: Direction) -> u8
        requires { Within self.now.points.count point }
        ensures { result ≡ coordinate self.now.bytes.now (direction_number direction) point }
    {
        self.bytes[(point - 1) * 3 + usize::from(direction)]
    }

    // The number that says where a point is joined.
    fn joins(&self, point: usize) -> u8
        requires { Within self.now.points.count point }
        ensures { result ≡ joins self.now.bytes.now point }
    {
        self.bytes[(point - 1) * 3 + 2]
    }

    // Whether a point is joined in a direction.
    fn is_joined(&self, point: usize, direction: Direction) -> bool
        requires { Within self.now.points.count point }
        ensures { Decides result (Joins self.now.bytes.now (direction_number direction) point) }
    {
        let joins = usize::from(self.joins(point));
        joins == usize::from(direction) + 1 || joins == 3
    }

    // Whether two points have one spot.
    fn share_spot(&self, one: usize, other: usize) -> bool
        requires one { Within self.now.points.count one }
        requires other { Within self.now.points.count other }
        ensures { Decides result (SharesSpot self.now.bytes.now one other) }
    {
        self.at(one, Direction::Across) == self.at(other, Direction::Across)
            && self.at(one, Direction::Up) == self.at(other, Direction::Up)
    }

    // Whether a lower point has the same spot.
    fn is_taken(&self, point: usize) -> bool
        requires { Within self.now.points.count point }
        ensures { Decides result (Taken old_sheet self.now.points.count self.now.bytes.now point) }
    {
        (1..point).any(|lower| self.share_spot(lower, point))
    }

    // Whether one point lies beyond another in a direction, on one line with it.
    fn lies_beyond(&self, point: usize, other: usize, direction: Direction) -> bool
        requires point { Within self.now.points.count point }
        requires other { Within self.now.points.count other }
        ensures { Decides result (Beyond self.now.bytes.now (direction_number direction) point other) }
    {
        let line = direction.other();
        self.at(point, line) == self.at(other, line)
            && self.at(point, direction) < self.at(other, direction)
    }

    // The nearest of the points beyond a point on its line.
    fn nearest(&self, point: usize, direction: Direction) -> Option<usize>
        requires { Within self.now.points.count point }
        ensures { MatchOption result ((w : ℕ) → Within self.now.points.count w → Beyond self.now.bytes.now (direction_number direction) point w → ⊥) (Nearest self.now.points.count self.now.bytes.now (direction_number direction) point) }
    {
        (1..=self.points.count)
            .filter(|other| self.lies_beyond(point, *other, direction))
            .min_by_key(|other| self.at(*other, direction))
    }
}

impl Body for Spots<'_> {
    ghost format = { old_sheet };

    ghost count = { λ s. s.points };

    ghost bytes = { λ s. s.bytes.now };

    fn points(&self) -> PointCount {
        self.points
    }

    fn is_too_high(&self, point: usize) -> bool {
        self.joins(point) > 3
    }

    fn first_taken(&self) -> Option<usize> {
        first_point(self.points.count, |point| self.is_taken(point))
    }

    fn next(&self, point: usize, direction: Direction) -> Result<Option<usize>, Refusal> {
        if self.is_joined(point, direction) {
            match self.nearest(point, direction) {
                None => Err(Refusal::Endless { point }),
                next => Ok(next),
            }
        } else {
            Ok(None)
        }
    }
}
