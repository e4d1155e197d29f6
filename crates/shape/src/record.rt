// A shape record: for each point the number of the next point to the right and of the next above.
ghost use Rattle.std.specs.Prelude.{◌≡◌, ℕ, suc, ◌*◌, ◌<◌, ◌≤◌, length, Decides, refl};
ghost use Rattle.segments.specs.Shapes.{Within, steps};
ghost use Rattle.shape.specs.Directions.{direction_number};
ghost use Rattle.shape.specs.Formats.{written, as_written, TooHigh, Taken, Nowhere, Firsts};
ghost use Rattle.shape.specs.Formats.Format.{shape_record};
ghost use Rattle.shape.specs.ByDirections.{of_direction};
ghost use Rattle.shape.specs.Tables.{Told};

use crate::body::{Body, tabled};
use crate::by_direction::ByDirection;
use crate::direction::Direction;
use crate::format::FileFormat;
use crate::links::Links;
use crate::points::{PointCount, first_point};
use crate::refusal::Refusal;
use crate::shape_table::ShapeTable;

pub type ShapeRecord = ShapeTable<RecordFormat>;

#[derive(Clone, Copy)]
pub struct RecordFormat;

impl FileFormat for RecordFormat {
    ghost format = { shape_record };

    ghost BYTES_A_POINT = { 2 };

    ghost its_bytes = { refl };

    const BYTES_A_POINT: usize = 2;

    // By a rule of the project: one pattern takes the file apart.
    fn parts(file: &[u8]) -> Option<(u8, &[u8])> {
        match file {
            [b'S', points, body @ ..] => Some((*points, body)),
            _ => None,
        }
    }

    fn table(points: PointCount, bytes: &[u8]) -> Result<Links, Refusal> {
        tabled(&Numbers { points, bytes })
    }
}

// As many numbers as a byte tells.
const NUMBERS: usize = 256;

#[derive(Clone, Copy)]
struct Numbers<'a> {
    points: PointCount,
    bytes: &'a [u8],
    ghost long: { length bytes.now ≡ 2 * points.count },
}

// Points are asked for as they are counted: a type for a point of the body would be made and taken apart at each question.
impl Numbers<'_> {
    // The number of the next point, or 0.
    fn number(&self, point: usize, direction: Direction) -> u8
        requires { Within self.now.points.count point }
        ensures { result ≡ written self.now.bytes.now (direction_number direction) point }
    {
        self.bytes[(point - 1) * 2 + usize::from(direction)]
    }

    // The next point.
    fn following(&self, point: usize, direction: Direction) -> Option<usize>
        requires { Within self.now.points.count point }
        ensures { Told (written self.now.bytes.now (direction_number direction) point) result }
    {
        match self.number(point, direction) {
            0 => None,
            next => Some(usize::from(next)),
        }
    }

    // At each number the lowest point that tells it.
    fn firsts(&self, direction: Direction) -> [u8; NUMBERS]
        ensures { Firsts self.now.points.count self.now.bytes.now (direction_number direction) result }
    {
        let mut firsts = [0; NUMBERS];
        for point in 1..=self.points.count {
            let next = usize::from(self.number(point, direction));
            if firsts[next] == 0 {
                firsts[next] = point as u8;
            }
        }
        firsts
    }

    // Whether a lower point has the same next point.
    fn is_repeated(&self, point: usize, direction: Direction, firsts: &[u8; NUMBERS]) -> bool
        requires point { Within self.now.points.count point }
        requires firsts { Firsts self.now.points.count self.now.bytes.now (direction_number direction) firsts.now }
        ensures { Decides result ((u : ℕ) × (1 ≤ u) × (u < point) × (written self.now.bytes.now (direction_number direction) u ≡ written self.now.bytes.now (direction_number direction) point) × (1 ≤ written self.now.bytes.now (direction_number direction) point)) }
    {
        let next = self.number(point, direction);
        next > 0 && usize::from(firsts[usize::from(next)]) < point
    }

    // The same in either direction.
    fn is_taken(&self, point: usize, firsts: &ByDirection<[u8; NUMBERS]>) -> bool
        requires point { Within self.now.points.count point }
        requires firsts { (d : ℕ) → d ≤ 1 → Firsts self.now.points.count self.now.bytes.now d (of_direction firsts.now d) }
        ensures { Decides result (Taken shape_record self.now.points.count self.now.bytes.now point) }
    {
        Direction::any(|direction| self.is_repeated(point, direction, firsts.of(direction)))
    }

    // Whether the chain from a point returns to it.
    fn returns(&self, point: usize, direction: Direction) -> bool
        requires point { Within self.now.points.count point }
        requires range { Nowhere self.now.points.count (TooHigh shape_record self.now.points.count self.now.bytes.now) }
        ensures { Decides result ((k : ℕ) × (steps (as_written self.now.points.count self.now.bytes.now) (direction_number direction) (suc k) point ≡ point)) }
    {
        // A walk with a bound, since a chain as it is written may go round.
        let mut at = point;
        for _walked in 0..self.points.count {
            match self.following(at, direction) {
                None => return false,
                Some(next) if next == point => return true,
                Some(next) => at = next,
            }
        }
        false
    }
}

impl Body for Numbers<'_> {
    ghost format = { shape_record };

    ghost count = { λ s. s.points };

    ghost bytes = { λ s. s.bytes.now };

    fn points(&self) -> PointCount {
        self.points
    }

    fn is_too_high(&self, point: usize) -> bool {
        Direction::any(|direction| usize::from(self.number(point, direction)) > self.points.count)
    }

    fn first_taken(&self) -> Option<usize> {
        let firsts = ByDirection {
            across: self.firsts(Direction::Across),
            up: self.firsts(Direction::Up),
        };
        first_point(self.points.count, |point| self.is_taken(point, &firsts))
    }

    fn next(&self, point: usize, direction: Direction) -> Result<Option<usize>, Refusal> {
        if self.returns(point, direction) {
            return Err(Refusal::Endless { point });
        }
        Ok(self.following(point, direction))
    }
}
