// The label of a node's place on a line: joined to the greater one, and moved by each gap, up to the ends of the line.
ghost use Rattle.std.specs.Prelude.{◌≡◌, ◌+ℤ◌, Some, None, refl};
ghost use Rattle.walks.specs.Places.{clamp, clamped_labels};
ghost use Rattle.propagation.specs.Kinds.{place_meaning};
ghost use Rattle.walks.proofs.Ends.{clamped_lawful};
ghost use Rattle.propagation.specs.Held.{held_lawful};
ghost use Rattle.std.proofs.Common.{rules};

use crate::label::Label;

// The line goes from minus this to this.
const END: i32 = 30_000;

#[derive(Clone, Copy, Debug, PartialEq, Eq)]
pub struct Place {
    // on the line: no function makes a place beyond its ends
    at: Option<i16>,
}

impl Place {
    // The place of a coordinate, or the end of the line that it lies beyond.
    pub fn new(coordinate: i16) -> Place
        ensures { result.at ≡ Some (clamp 30000 coordinate) }
    {
        Place {
            at: Some(moved(coordinate, 0)),
        }
    }

    // The coordinate, where there is a place.
    pub fn coordinate(&self) -> Option<i16>
        ensures { result ≡ self.now.at }
    {
        self.at
    }
}

// A coordinate with a gap added, or the end of the line that this would pass.
fn moved(coordinate: i16, gap: i8) -> i16
    ensures { result ≡ clamp 30000 (coordinate +ℤ gap) }
{
    let sum = i32::from(coordinate) + i32::from(gap);
    sum.clamp(-END, END) as i16
}

impl Label for Place {
    const NONE: Place = Place { at: None };

    ghost NONE = { record { at = None } };

    ghost meaning = { place_meaning };

    ghost lawful = { held_lawful (λ p. p.at) (λ o. record { at = o }) (clamped_labels 30000) (λ _. refl) (λ _. refl) (clamped_lawful 30000) };

    ghost none_is_meant = { Prim.search rules };

    ghost equal_is_same = { Prim.search rules };

    fn join(self, other: Place) -> Place {
        match (self.at, other.at) {
            (None, _) => other,
            (_, None) => self,
            (Some(a), Some(b)) => Place { at: Some(a.max(b)) },
        }
    }

    fn carry(self, gap: i8) -> Place {
        let Some(a) = self.at else {
            return self;
        };
        Place {
            at: Some(moved(a, gap)),
        }
    }
}
