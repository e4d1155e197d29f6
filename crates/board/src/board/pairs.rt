// How rows and columns lie to each other under the arcs in force.
ghost use Rattle.std.specs.Prelude.{◌≡◌, ℕ, ◌-◌, ◌<◌, List, ◌∷◌, Decides, MatchOption, MatchResult};
ghost use Rattle.segments.specs.Shapes.{Shape};
ghost use Rattle.segments.specs.Segments.{Named};
ghost use Rattle.drawings.specs.Arcs.{Arc, Path, EndsBefore, BeginsBeyond, Open, NoneOpen};
ghost use Rattle.shape.specs.Directions.{direction_number};
ghost use Rattle.logs.specs.Lines.{Line, apart};
ghost use Rattle.logs.specs.Refusing.{LowestOpen};
ghost use Rattle.logs.specs.Answers.{Answers, Pairs};
ghost use Rattle.logs.specs.declared.refusal.Refusal.TheVariants.{OpenPair};
ghost use Rattle.board.specs.Boards.{gap_of, Stands};
ghost use Rattle.board.specs.Outcomes.{of_pair};

use super::Board;
use logs::pairing::Pairing;
use logs::refusal::Refusal;
use shape::direction::Direction;

impl Board {
    // Whether a line along the direction, a row across or a column up, ends before a segment of the direction:
    // whether the segment where it ends reaches that one.
    fn ends_before(&self, direction: Direction, line: usize, segment: usize) -> bool
        ensures { (s : Shape) (log : List Line) → Stands s log self.now → Named s (1 - direction_number direction) line → Decides result (EndsBefore s (λ dir. Path (Arc (gap_of self.now) dir)) (direction_number direction) line segment) }
    {
        let Some(record) = self.segments.segment(usize::from(direction.other()), line) else {
            return false;
        };
        let Some(last) = self.segments.name(usize::from(direction), record.end) else {
            return false;
        };
        self.arcs.of(direction).reaches(last, segment)
    }

    // Whether such a line begins beyond a segment of the direction: whether that one reaches the segment where it begins.
    fn begins_beyond(&self, direction: Direction, line: usize, segment: usize) -> bool
        ensures { (s : Shape) (log : List Line) → Stands s log self.now → Named s (1 - direction_number direction) line → Decides result (BeginsBeyond s (λ dir. Path (Arc (gap_of self.now) dir)) (direction_number direction) line segment) }
    {
        let Some(first) = self.segments.name(usize::from(direction), line) else {
            return false;
        };
        self.arcs.of(direction).reaches(segment, first)
    }

    // How a row and a column lie.
    fn pairing(&self, row: usize, column: usize) -> Pairing
        ensures { (s : Shape) (log : List Line) → Stands s log self.now → Named s 1 row → Named s 0 column → Pairs s (gap_of self.now) row column result }
    {
        if self.segments.touch(row, column) {
            return Pairing::Touch;
        }
        if self.ends_before(Direction::Across, row, column)
            || self.begins_beyond(Direction::Across, row, column)
            || self.begins_beyond(Direction::Up, column, row)
            || self.ends_before(Direction::Up, column, row)
        {
            return Pairing::Apart;
        }
        Pairing::Open
    }

    // Whether a row and a column touch, are apart or are open.
    pub fn apart(&self, row: usize, column: usize) -> Result<Pairing, Refusal>
        ensures answers { (s : Shape) (log : List Line) → Stands s log self.now → Answers s (gap_of self.now) (apart row column) (of_pair result) }
        ensures stands { (s : Shape) (log : List Line) → Stands s log self.now → Stands s (apart row column ∷ log) self.now }
    {
        self.check_name(Direction::Up, row)?;
        self.check_name(Direction::Across, column)?;
        Ok(self.pairing(row, column))
    }

    // Whether the numbers name a row and a column that are open.
    fn is_open(&self, row: usize, column: usize) -> bool
        ensures { (s : Shape) (log : List Line) → Stands s log self.now → Decides result (Open s (Arc (gap_of self.now)) row column) }
    {
        matches!(self.apart(row, column), Ok(Pairing::Open))
    }

    // No pair is open; or the lowest row of one, and its lowest column.
    // By a rule of the project: loops that a label leaves at the first open pair.
    pub(super) fn check_pairs(&self) -> Result<(), Refusal>
        ensures { (s : Shape) (log : List Line) → Stands s log self.now → MatchResult result (λ _. NoneOpen s (Arc (gap_of self.now))) (λ e. (row column : ℕ) × (e ≡ OpenPair row column) × LowestOpen s (gap_of self.now) row column) }
    {
        let points = self.segments.points();
        let mut found = None;
        'rows: for row in 1..=points {
            for column in 1..=points {
                if self.is_open(row, column) {
                    found = Some(Refusal::OpenPair { row, column });
                    break 'rows;
                }
            }
        }
        match found {
            Some(refusal) => Err(refusal),
            None => Ok(()),
        }
    }
}
