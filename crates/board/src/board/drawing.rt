// Draft and lay: the least drawings that obey the arcs in force.
ghost use Rattle.std.specs.Prelude.{◌≡◌, ℕ, ◌*◌, ◌≤◌, true, List, ◌∷◌, length, pos, is_err, IfOk, MatchResult, slice_index};
ghost use Rattle.walks.specs.Places.{Least};
ghost use Rattle.walks.specs.Flows.{layer};
ghost use Rattle.segments.specs.Shapes.{Shape};
ghost use Rattle.drawings.specs.Arcs.{Arc, Circle};
ghost use Rattle.drawings.specs.Drawings.{Draws};
ghost use Rattle.drawings.specs.Flows.{FlowOver, GreatestAlong, drawn};
ghost use Rattle.drawings.specs.Graphs.{graph, cells as node_cells};
ghost use Rattle.shape.specs.Directions.{direction_number};
ghost use Rattle.shape.specs.Sources.{of_copy};
ghost use Rattle.logs.specs.Lines.{Line, cell_of, draft, lay};
ghost use Rattle.logs.specs.Refusing.{PointsFit, RefusesPoints};
ghost use Rattle.logs.specs.Answers.{Answers, HandsOut};
ghost use Rattle.logs.specs.declared.refusal.Refusal.TheVariants.{Contradictory, NotGreatest};
ghost use Rattle.board.specs.Boards.{gap_of, Stands};
ghost use Rattle.board.specs.Outcomes.{of_drawing};
ghost use Rattle.board.specs.Cells.{bytes_in};
ghost use Rattle.board.specs.Placing.{coordinate_in};

use super::Board;
use super::flows::Flow;
use crate::measuring::total_length;
use crate::placing::{Coordinates, write_places};
use constraints::least::least_over;
use logs::refusal::Refusal;
use logs::spot::Spot;
use propagation::flow_layer::FlowLayer;
use propagation::graph::MOST_NODES;
use shape::by_direction::ByDirection;
use shape::direction::Direction;
use shape::source::ShapeSource;

impl Board {
    // The shape can be drawn, and there is one record for each point.
    fn check_points(&self, records: usize) -> Result<(), Refusal>
        ensures fits { (s : Shape) (log : List Line) → Stands s log self.now → MatchResult result (λ _. PointsFit s records) (RefusesPoints s records) }
        ensures long { IfOk result (λ _. records ≡ (of_copy self.now.shape).points) }
    {
        if self.contradictory {
            return Err(Refusal::Contradictory);
        }
        if records != self.shape.points() {
            return Err(Refusal::WrongPoints);
        }
        Ok(())
    }

    // The least coordinates of a direction that obey the arcs in force.
    fn least_along(&self, direction: Direction) -> Result<[u16; MOST_NODES], Refusal>
        ensures { (s : Shape) (log : List Line) → Stands s log self.now → MatchResult result (λ xs. Least s.points (graph (gap_of self.now) (direction_number direction)) (λ v. pos (slice_index xs v))) (λ e. (e ≡ Contradictory) × Circle (Arc (gap_of self.now))) }
    {
        least_over(self.arcs.of(direction).graph()).ok_or(Refusal::Contradictory)
    }

    // The least coordinates of a direction that obey the arcs in force, with exact steps where the flow's cell is above 0.
    fn exact_along(&self, direction: Direction, flow: &Flow) -> Result<[u16; MOST_NODES], Refusal>
        ensures { (s : Shape) (log : List Line) → Stands s log self.now → let dir = direction_number direction in let cells = cell_of s.points (bytes_in flow.now dir) in FlowOver s (gap_of self.now) dir cells → MatchResult result (λ xs. Least s.points (layer (graph (gap_of self.now) dir) (node_cells cells)) (λ v. pos (slice_index xs v))) (λ e. (e ≡ NotGreatest dir) × (GreatestAlong s (gap_of self.now) dir cells → ⊥)) }
    {
        let layer = FlowLayer::new(self.arcs.of(direction).graph(), flow.bytes(direction));
        least_over(&layer).ok_or(Refusal::NotGreatest {
            direction: usize::from(direction),
        })
    }

    // Writes the places that the coordinates of columns and rows give, and answers the total.
    fn draw(&self, coordinates: &Coordinates, points: &mut [Spot]) -> u32
        requires { length points.old ≡ (of_copy self.now.shape).points }
        ensures { (s : Shape) (log : List Line) → Stands s log self.now → Draws s (drawn (coordinate_in coordinates.now)) → HandsOut s (coordinate_in coordinates.now) result points.new }
    {
        write_places(&self.segments, coordinates, points);
        total_length(&self.shape, points)
    }

    // The least drawing that obeys the arcs in force, written into the points memory, and its total.
    pub fn draft(&self, points: &mut [Spot]) -> Result<u32, Refusal>
        ensures answers { (s : Shape) (log : List Line) → Stands s log self.now → Answers s (gap_of self.now) (draft (length points.old)) (of_drawing result points.new) }
        ensures stands { (s : Shape) (log : List Line) → Stands s log self.now → Stands s (draft (length points.old) ∷ log) self.now }
        ensures keeps { is_err result ≡ true → points.new ≡ points.old }
    {
        self.check_points(points.len())?;
        self.check_pairs()?;
        let coordinates = ByDirection {
            across: self.least_along(Direction::Across)?,
            up: self.least_along(Direction::Up)?,
        };
        Ok(self.draw(&coordinates, points))
    }

    // The least drawing that obeys the arcs in force, with exact steps where the greatest flow given is above 0,
    // written into the points memory, and its total.
    pub fn lay(&self, across: &[u8], up: &[u8], points: &mut [Spot]) -> Result<u32, Refusal>
        ensures answers { (s : Shape) (log : List Line) → Stands s log self.now → Answers s (gap_of self.now) (lay (length points.old) across.now up.now) (of_drawing result points.new) }
        ensures stands { (s : Shape) (log : List Line) → Stands s log self.now → Stands s (lay (length points.old) across.now up.now ∷ log) self.now }
        ensures keeps { is_err result ≡ true → points.new ≡ points.old }
    {
        self.check_points(points.len())?;
        let flow = Flow::over(self, across, up)?;
        self.check_pairs()?;
        flow.check()?;
        let coordinates = ByDirection {
            across: self.exact_along(Direction::Across, &flow)?,
            up: self.exact_along(Direction::Up, &flow)?,
        };
        Ok(self.draw(&coordinates, points))
    }
}
