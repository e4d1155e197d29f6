// A refusal as the listing's line.
ghost use Rattle.std.specs.Prelude.{Some, codes};
ghost use Rattle.shape.specs.Refusals.{naming};
ghost use Rattle.report.specs.Texts.{refusal_line};

use shape::refusal::{Naming, Refusal};
use std::fmt;

// The line of a refused shape file: layer s, and no record.
#[derive(Clone, Copy)]
pub struct RefusalLine {
    pub refusal: Refusal,
}

impl fmt::Display for RefusalLine {
    ghost output = { λ line. Some (refusal_line (codes "s") 0 (naming line.refusal)) };

    fn fmt<W: fmt::Write>(&self, f: &mut fmt::Formatter<W>) -> fmt::Result {
        writeln!(f, "no s 0 {}", Naming::from(self.refusal))
    }
}
