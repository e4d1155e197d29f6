// The shape's own arcs of a direction, as a constraint graph.
ghost use Rattle.std.specs.Prelude.{◌≡◌, ℕ, ◌+◌, ◌≤◌, MatchOption};
ghost use Rattle.shape.specs.Directions.{direction_number};
ghost use Rattle.propagation.specs.Tables.{arc_gaps};
ghost use Rattle.constraints.specs.Own.{OwnGaps, Entered};

use propagation::arc_table::ArcTable;
use shape::direction::Direction;
use shape::ends::own_arc;
use shape::source::ShapeSource;

// The arc of the wire that begins at a point, if there is one.
fn enter<S: ShapeSource>(table: &mut ArcTable, source: &S, direction: Direction, point: usize)
    requires { table.old.nodes ≡ (S.ShapeSource.shape source.now).points }
    ensures nodes { table.new.nodes ≡ table.old.nodes }
    ensures enters { Entered (S.ShapeSource.shape source.now) (direction_number direction) point (arc_gaps table.old) → Entered (S.ShapeSource.shape source.now) (direction_number direction) (point + 1) (arc_gaps table.new) }
{
    if let Some(arc) = own_arc(source, usize::from(direction), point) {
        table.set(arc.from - 1, arc.to - 1);
    }
}

// One arc for each wire; none for a direction above 1.
pub fn own_arcs<S: ShapeSource>(source: &S, direction: usize) -> Option<ArcTable>
    ensures { MatchOption result (direction ≤ 1 → ⊥) (λ t. (direction ≤ 1) × (t.nodes ≡ (S.ShapeSource.shape source.now).points) × OwnGaps (S.ShapeSource.shape source.now) direction (arc_gaps t)) }
{
    let direction = Direction::try_from(direction).ok()?;
    let mut table = ArcTable::new(source.points())?;
    for point in 1..=source.points() {
        enter(&mut table, source, direction, point);
    }
    Some(table)
}
