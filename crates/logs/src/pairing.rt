// How a row and a column lie to each other under the arcs in force.
ghost use Rattle.std.specs.Prelude.{Some};
ghost use Rattle.logs.specs.Pairings.{pairing_text};

use std::fmt;

#[derive(Clone, Copy, Debug, PartialEq, Eq)]
pub enum Pairing {
    // they share a point
    Touch,
    // they share no point, and a path of arcs keeps them apart
    Apart,
    // neither: some drawing that obeys the arcs may draw one across the other
    Open,
}

impl fmt::Display for Pairing {
    ghost output = { λ pairing. Some (pairing_text pairing) };

    fn fmt<W: fmt::Write>(&self, f: &mut fmt::Formatter<W>) -> fmt::Result {
        f.write_str(match self {
            Pairing::Touch => "touch",
            Pairing::Apart => "apart",
            Pairing::Open => "open",
        })
    }
}
