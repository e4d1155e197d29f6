// A table of neighbours that keeps the laws of a shape.
ghost use Rattle.segments.specs.Shapes.{Lawful};
ghost use Rattle.shape.specs.Tables.{of_links};

use crate::links::Links;

mod telling;

#[derive(Clone, Copy)]
pub(crate) struct Neighbours {
    links: Links,
    ghost lawful: { ∥ Lawful (of_links links) ∥₁ },
}
