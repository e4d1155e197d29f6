// The checks of directions and names, and of a contradictory shape.
ghost use Rattle.std.specs.Prelude.{◌≡◌, ℕ, ◌<◌, List, IfOk, MatchResult};
ghost use Rattle.segments.specs.Shapes.{Shape};
ghost use Rattle.segments.specs.Segments.{Named};
ghost use Rattle.shape.specs.Directions.{direction_number};
ghost use Rattle.logs.specs.Lines.{Line};
ghost use Rattle.logs.specs.Refusing.{RefusesArc, RefusesChange, MayChange};
ghost use Rattle.logs.specs.declared.refusal.Refusal.TheVariants.{NoDirection, NoSegment};
ghost use Rattle.board.specs.Boards.{Stands};
ghost use Rattle.board.specs.Asking.{AsAsked};

use super::Board;
use logs::refusal::Refusal;
use shape::direction::Direction;

// An arc that was asked for, once its direction and its two names have been looked up.
#[derive(Clone, Copy)]
pub(super) struct NamedArc {
    pub(super) direction: Direction,
    pub(super) from: usize,
    pub(super) to: usize,
}

// The direction with a number.
fn direction_of(number: usize) -> Result<Direction, Refusal>
    ensures { MatchResult result (λ direction. direction_number direction ≡ number) (λ e. (e ≡ NoDirection) × (1 < number)) }
{
    Direction::try_from(number).map_err(|_| Refusal::NoDirection)
}

impl Board {
    // The number names a segment of the direction.
    pub(super) fn check_name(&self, direction: Direction, number: usize) -> Result<(), Refusal>
        ensures { (s : Shape) (log : List Line) → Stands s log self.now → MatchResult result (λ _. Named s (direction_number direction) number) (λ e. (e ≡ NoSegment number) × (Named s (direction_number direction) number → ⊥)) }
    {
        if !self.segments.is_name(usize::from(direction), number) {
            return Err(Refusal::NoSegment { number });
        }
        Ok(())
    }

    // There is such a direction, and both numbers name segments of it.
    pub(super) fn check_arc(
        &self,
        direction: usize,
        from: usize,
        to: usize,
    ) -> Result<NamedArc, Refusal>
        ensures arc { IfOk result (AsAsked direction from to) }
        ensures names { (s : Shape) (log : List Line) → Stands s log self.now → MatchResult result (λ _. Named s direction from × Named s direction to) (RefusesArc s direction from to) }
    {
        let direction = direction_of(direction)?;
        self.check_name(direction, from)?;
        self.check_name(direction, to)?;
        Ok(NamedArc {
            direction,
            from,
            to,
        })
    }

    // Likewise, and the shape can be drawn.
    pub(super) fn check_change(
        &self,
        direction: usize,
        from: usize,
        to: usize,
    ) -> Result<NamedArc, Refusal>
        ensures arc { IfOk result (AsAsked direction from to) }
        ensures may { (s : Shape) (log : List Line) → Stands s log self.now → MatchResult result (λ _. MayChange s direction from to) (RefusesChange s direction from to) }
    {
        let arc = self.check_arc(direction, from, to)?;
        if self.contradictory {
            return Err(Refusal::Contradictory);
        }
        Ok(arc)
    }
}
