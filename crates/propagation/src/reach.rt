// The label of a node that is reached, or is not: carried as it is over every gap.
ghost use Rattle.std.specs.Prelude.{false};
ghost use Rattle.propagation.specs.Kinds.{reach_meaning};
ghost use Rattle.std.proofs.Common.{rules};

use crate::label::Label;

#[derive(Clone, Copy, Debug, PartialEq, Eq)]
pub struct Reach {
    pub yes: bool,
}

impl Label for Reach {
    const NONE: Reach = Reach { yes: false };

    ghost NONE = { record { yes = false } };

    ghost meaning = { reach_meaning };

    ghost lawful = { Prim.search rules };

    ghost none_is_meant = { Prim.search rules };

    ghost equal_is_same = { Prim.search rules };

    fn join(self, other: Reach) -> Reach {
        Reach {
            yes: self.yes || other.yes,
        }
    }

    fn carry(self, _gap: i8) -> Reach {
        self
    }
}
