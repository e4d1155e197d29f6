// What a board answers to a call.
ghost use Rattle.std.specs.Prelude.{Some};
ghost use Rattle.calls.specs.Texts.{answer_text};

use logs::pairing::Pairing;
use logs::refusal::Refusal;
use logs::spot::Spot;
use shape::refusal::Naming;
use std::fmt;

#[derive(Drop)]
pub enum Answer {
    // an add or a strike is accepted
    Done,
    // whether the arc is in force
    Told(bool),
    Paired(Pairing),
    // a total, and what the points memory then holds
    Drew { total: u32, places: Vec<Spot> },
    Refused(Refusal),
}

impl fmt::Display for Answer {
    ghost output = { λ a. Some (answer_text a) };

    fn fmt<W: fmt::Write>(&self, f: &mut fmt::Formatter<W>) -> fmt::Result {
        match self {
            Answer::Done => f.write_str("ok"),
            Answer::Told(true) => f.write_str("yes"),
            Answer::Told(false) => f.write_str("none"),
            Answer::Paired(pairing) => write!(f, "{pairing}"),
            Answer::Drew { total, places } => {
                write!(f, "{total}")?;
                for Spot { x, y } in places {
                    write!(f, " {x} {y}")?;
                }
                Ok(())
            }
            Answer::Refused(refusal) => write!(f, "no {}", Naming::from(*refusal)),
        }
    }
}
