// A shape in a table of its own.
ghost use Rattle.shape.specs.Formats.{Reads};
ghost use Rattle.segments.specs.Shapes.{Same};
ghost use Rattle.shape.specs.Tables.{unwired};
ghost use Rattle.shape.specs.Sources.{of_table};
ghost use Rattle.shape.specs.Keeping.{neighbours_lawful};

use crate::direction::Side;
use crate::format::{FileFormat, described};
use crate::neighbours::Neighbours;
use crate::points::PointCount;
use crate::refusal::Refusal;
use crate::source::ShapeSource;
use std::marker::PhantomData;

// The origin says where the shape is from: a file of one of the formats, or another source.
#[derive(Clone, Copy)]
pub struct ShapeTable<Origin> {
    pub(crate) neighbours: Neighbours,
    pub(crate) origin: PhantomData<Origin>,
}

impl<F: FileFormat> ShapeTable<F> {
    // One point without wires.
    pub fn new() -> ShapeTable<F>
        ensures { Same (of_table result) (unwired 1) }
    {
        ShapeTable {
            neighbours: Neighbours::unjoined(PointCount { count: 1 }),
            origin: PhantomData,
        }
    }

    // Fills the table from a file's bytes, or refuses them and leaves it as it was.
    pub fn read(&mut self, file: &[u8]) -> Result<(), Refusal>
        ensures { Reads F.format file.now of_table self.old self.new result }
    {
        self.neighbours = described::<F>(file)?;
        Ok(())
    }
}

impl<Origin> ShapeSource for ShapeTable<Origin> {
    ghost shape = { of_table };

    ghost lawful = { λ t. neighbours_lawful t.neighbours };

    fn points(&self) -> usize {
        self.neighbours.points()
    }

    fn neighbour(&self, point: usize, side: usize) -> Option<usize> {
        let side = Side::try_from(side).ok()?;
        self.neighbours.neighbour(point, side)
    }
}
