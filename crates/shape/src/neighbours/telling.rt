// What a lawful table of neighbours answers.
ghost use Rattle.std.specs.Prelude.{◌≡◌, ◌≤◌};
ghost use Rattle.segments.specs.Shapes.{Lawful, Same};
ghost use Rattle.shape.specs.Directions.{side_number};
ghost use Rattle.shape.specs.Tables.{Told, of_links, unwired};
ghost use Rattle.shape.specs.Sources.{of_neighbours};

use super::Neighbours;
use crate::direction::Side;
use crate::links::Links;
use crate::points::PointCount;

impl Neighbours {
    // Points without wires.
    pub(crate) fn unjoined(points: PointCount) -> Neighbours
        ensures { Same (of_neighbours result) (unwired points.count) }
    {
        Neighbours {
            links: Links::unjoined(points),
        }
    }

    pub(crate) fn of(links: Links) -> Neighbours
        requires { Lawful (of_links links) }
        ensures { result.links ≡ links }
    {
        Neighbours { links }
    }

    pub(crate) fn points(&self) -> usize
        ensures { result ≡ (of_neighbours self.now).points }
    {
        self.links.points()
    }

    pub(crate) fn neighbour(&self, point: usize, side: Side) -> Option<usize>
        ensures { Told ((of_neighbours self.now).next (side_number side) point) result }
    {
        self.links.neighbour(point, side)
    }
}
