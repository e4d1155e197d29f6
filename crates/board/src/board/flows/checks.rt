// The checks of a flow, in the order of the rules.
ghost use Rattle.std.specs.Prelude.{List, MatchResult};
ghost use Rattle.segments.specs.Shapes.{Shape};
ghost use Rattle.drawings.specs.Flows.{Flows};
ghost use Rattle.shape.specs.Directions.{direction_number};
ghost use Rattle.logs.specs.Lines.{Line, cell_of};
ghost use Rattle.board.specs.Boards.{gap_of, Stands};
ghost use Rattle.board.specs.Cells.{bytes_in, flow_in};
ghost use Rattle.board.specs.Flows.{OnArcsOrFirst, TellsBalance, BalancedOrLowest, FlowRefused};

use super::Flow;
use logs::refusal::Refusal;
use shape::direction::Direction;

impl Flow<'_> {
    // No cell above 0 of a direction is off the arcs in force.
    fn check_on_arcs(&self, direction: Direction) -> Result<(), Refusal>
        ensures { (s : Shape) (log : List Line) → Stands s log self.now.board.now → OnArcsOrFirst s (gap_of self.now.board.now) (direction_number direction) (cell_of s.points (bytes_in self.now (direction_number direction))) result }
    {
        match self.first_off(direction) {
            Some(arc) => Err(Refusal::FlowOffArcs {
                direction: usize::from(direction),
                from: arc.from,
                to: arc.to,
            }),
            None => Ok(()),
        }
    }

    // Whether a number names a segment of the direction where the cells are out of balance.
    fn is_off_balance(&self, direction: Direction, number: usize) -> bool
        ensures { TellsBalance self.now (direction_number direction) number result }
    {
        let segments = &self.board.segments;
        if !segments.is_name(usize::from(direction), number) {
            return false;
        }
        let Some(segment) = segments.segment(usize::from(direction), number) else {
            return false;
        };
        !self.is_balanced(direction, number, &segment)
    }

    // The cells of a direction are balanced at each of its segments.
    fn check_balance(&self, direction: Direction) -> Result<(), Refusal>
        ensures { (s : Shape) (log : List Line) → Stands s log self.now.board.now → BalancedOrLowest s (direction_number direction) (cell_of s.points (bytes_in self.now (direction_number direction))) result }
    {
        let lowest = (1..=self.board.segments.points()).find(|number| self.is_off_balance(
            direction, *number,
        ));
        match lowest {
            Some(segment) => Err(Refusal::OutOfBalance {
                direction: usize::from(direction),
                segment,
            }),
            None => Ok(()),
        }
    }

    // The flow is 0 off the arcs in force and balanced; each is looked at across and then up.
    pub(in crate::board) fn check(&self) -> Result<(), Refusal>
        ensures { (s : Shape) (log : List Line) → Stands s log self.now.board.now → MatchResult result (λ _. Flows s (gap_of self.now.board.now) (flow_in s self.now)) (FlowRefused s (gap_of self.now.board.now) (flow_in s self.now)) }
    {
        self.check_on_arcs(Direction::Across)?;
        self.check_on_arcs(Direction::Up)?;
        self.check_balance(Direction::Across)?;
        self.check_balance(Direction::Up)
    }
}
