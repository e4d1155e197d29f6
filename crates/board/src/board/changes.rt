// Arcs come into force, are struck, and are asked for.
ghost use Rattle.std.specs.Prelude.{◌≡◌, ℕ, true, List, ◌∷◌, is_err, Decides};
ghost use Rattle.segments.specs.Shapes.{Shape};
ghost use Rattle.drawings.specs.Arcs.{Arc, IsOrReaches};
ghost use Rattle.logs.specs.Lines.{Line, add, strike, arc};
ghost use Rattle.logs.specs.Answers.{Answers};
ghost use Rattle.path_table.specs.Tracks.{Added, Struck};
ghost use Rattle.shape.specs.Directions.{direction_number};
ghost use Rattle.board.specs.Boards.{gap_of, Stands};
ghost use Rattle.board.specs.Outcomes.{of_change, of_question};
ghost use Rattle.board.specs.Changing.{Changed};

use super::Board;
use super::names::NamedArc;
use logs::refusal::Refusal;

impl Board {
    fn enter(&mut self, arc: NamedArc)
        ensures { Changed self.old self.new (direction_number arc.direction) (λ x y. Added x y arc.from arc.to) }
    {
        self.arcs.of_mut(arc.direction).add(arc.from, arc.to);
    }

    fn withdraw(&mut self, arc: NamedArc)
        ensures { Changed self.old self.new (direction_number arc.direction) (λ x y. Struck x y arc.from arc.to) }
    {
        self.arcs.of_mut(arc.direction).strike(arc.from, arc.to);
    }

    // Whether the arc would close a circle: its end is its beginning, or reaches it.
    fn closes_circle(&self, arc: NamedArc) -> bool
        ensures { (s : Shape) (log : List Line) → Stands s log self.now → Decides result (IsOrReaches (Arc (gap_of self.now) (direction_number arc.direction)) arc.to arc.from) }
    {
        arc.from == arc.to || self.arcs.of(arc.direction).reaches(arc.to, arc.from)
    }

    // The arc comes into force, unless it would close a circle.
    pub fn add(&mut self, direction: usize, from: usize, to: usize) -> Result<(), Refusal>
        ensures answers { (s : Shape) (log : List Line) → Stands s log self.old → Answers s (gap_of self.old) (add direction from to) (of_change result) }
        ensures stands { (s : Shape) (log : List Line) → Stands s log self.old → Stands s (add direction from to ∷ log) self.new }
        ensures keeps { is_err result ≡ true → self.new ≡ self.old }
    {
        let arc = self.check_change(direction, from, to)?;
        if self.closes_circle(arc) {
            return Err(Refusal::ClosesCircle {
                direction,
                from,
                to,
            });
        }
        self.enter(arc);
        Ok(())
    }

    // The arc is no longer in force; the shape's own arcs stay.
    pub fn strike(&mut self, direction: usize, from: usize, to: usize) -> Result<(), Refusal>
        ensures answers { (s : Shape) (log : List Line) → Stands s log self.old → Answers s (gap_of self.old) (strike direction from to) (of_change result) }
        ensures stands { (s : Shape) (log : List Line) → Stands s log self.old → Stands s (strike direction from to ∷ log) self.new }
        ensures keeps { is_err result ≡ true → self.new ≡ self.old }
    {
        let arc = self.check_change(direction, from, to)?;
        let arcs = self.arcs.of(arc.direction);
        if !arcs.has(arc.from, arc.to) {
            return Err(Refusal::NotInForce {
                direction,
                from,
                to,
            });
        }
        if arcs.is_own(arc.from, arc.to) {
            return Err(Refusal::GivenByShape {
                direction,
                from,
                to,
            });
        }
        self.withdraw(arc);
        Ok(())
    }

    // Whether the arc is in force.
    pub fn arc(&self, direction: usize, from: usize, to: usize) -> Result<bool, Refusal>
        ensures answers { (s : Shape) (log : List Line) → Stands s log self.now → Answers s (gap_of self.now) (arc direction from to) (of_question result) }
        ensures stands { (s : Shape) (log : List Line) → Stands s log self.now → Stands s (arc direction from to ∷ log) self.now }
    {
        let arc = self.check_arc(direction, from, to)?;
        Ok(self.arcs.of(arc.direction).has(arc.from, arc.to))
    }
}
