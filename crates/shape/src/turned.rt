// Any source of shapes, turned by quarters.
ghost use Rattle.std.specs.Prelude.{◌≡◌, ℕ, ◌+◌, ◌%◌, ◌≤◌};
ghost use Rattle.segments.specs.Shapes.{Shape, Lawful, Same};
ghost use Rattle.shape.specs.Turning.{side_before, turned};
ghost use Rattle.shape.specs.TurningLemmas.{turned_lawful};

use crate::direction::Side;
use crate::source::ShapeSource;

#[derive(Clone, Copy)]
pub struct Turned<S: ShapeSource> {
    source: S,
    turns: usize,
}

// What is left of a count of quarter turns without its whole turns: it turns every shape alike, and a turned shape keeps the laws.
fn less_whole_turns(turns: usize) -> usize
    ensures below_four { result ≤ 3 }
    ensures counts_sides_back { (d : ℕ) → d ≤ 3 → (side_before result d ≤ 3) × ((side_before result d + turns) % 4 ≡ d) }
    ensures turns_alike { (s : Shape) → Same (turned result s) (turned turns s) }
    ensures four_more_change_nothing { (s : Shape) → Same (turned result s) (turned (turns + 4) s) }
    ensures keeps_the_laws { (s : Shape) → Lawful s → Lawful (turned result s) }
{
    turns % 4
}

impl<S: ShapeSource> Turned<S> {
    // The source, turned by so many quarters; four more change no answer.
    pub fn new(source: S, turns: usize) -> Turned<S>
        ensures holds { result.source ≡ source }
        ensures turns_the_shape { Same (turned result.turns (S.ShapeSource.shape result.source)) (turned turns (S.ShapeSource.shape source)) }
        ensures four_more_turns_change_nothing { Same (turned result.turns (S.ShapeSource.shape result.source)) (turned (turns + 4) (S.ShapeSource.shape source)) }
        ensures keeps_the_laws { (s : Shape) → Lawful s → Lawful (turned result.turns s) }
    {
        Turned {
            source,
            turns: less_whole_turns(turns),
        }
    }
}

impl<S: ShapeSource> ShapeSource for Turned<S> {
    ghost shape = { λ t. turned t.turns (S.ShapeSource.shape t.source) };

    ghost lawful = { λ s. turned_lawful s.turns (S.ShapeSource.shape s.source) (S.ShapeSource.lawful s.source) };

    fn points(&self) -> usize {
        self.source.points()
    }

    fn neighbour(&self, point: usize, side: usize) -> Option<usize> {
        let side = usize::from(Side::try_from(side).ok()?);
        self.source
            .neighbour(point, (side + (4 - self.turns % 4)) % 4)
    }
}
