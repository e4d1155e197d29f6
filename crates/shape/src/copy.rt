// A copy of any source's shape, in a table of its own.
ghost use Rattle.std.specs.Prelude.{◌≡◌, ◌*◌};
ghost use Rattle.shape.specs.Sources.{of_copy, LeadsAs};
ghost use Rattle.shape.specs.Tables.{Filled};

use crate::links::Links;
use crate::neighbours::Neighbours;
use crate::points::PointCount;
use crate::shape_table::ShapeTable;
use crate::source::ShapeSource;
use crate::wires::filled;
use std::convert::Infallible;
use std::marker::PhantomData;

pub type ShapeCopy = ShapeTable<Copied>;

#[derive(Clone, Copy)]
pub struct Copied;

impl ShapeCopy {
    // The shape of a source, asked for once.
    pub fn of<S: ShapeSource>(source: &S) -> ShapeCopy
        ensures { of_copy result ≡ S.ShapeSource.shape source.now }
    {
        ShapeTable {
            neighbours: Neighbours::of(links_of(source)),
            origin: PhantomData,
        }
    }
}

// The table of a source's wires.
fn links_of<S: ShapeSource>(source: &S) -> Links
    ensures { Filled (LeadsAs (S.ShapeSource.shape source.now)) (S.ShapeSource.shape source.now).points ((S.ShapeSource.shape source.now).points * 2) result }
{
    let points = PointCount {
        count: source.points(),
    };
    let Ok(links) = filled::<Infallible, _>(points, |point, direction| {
        Ok(source.beside(point, direction.ahead()))
    });
    links
}
