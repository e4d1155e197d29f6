// What a label is: it can be joined with another and carried over a gap, and two are equal only where they are the same.
ghost use Rattle.std.specs.Prelude.{◌≡◌, IsTrue, ◌↔◌};
ghost use Rattle.walks.specs.Rounds.{Labels, Lawful};

pub trait Label: Copy + Eq {
    // By a rule of the project: none is a constant of the trait.
    const NONE: Self;

    ghost NONE: { Self };

    // What join, none and carry mean.
    ghost meaning: { Labels Self };

    fn join(self, other: Self) -> Self
        ensures { result ≡ meaning.join self other };

    fn carry(self, gap: i8) -> Self
        ensures { result ≡ meaning.carry gap self };

    ghost lawful: { Lawful meaning };

    ghost none_is_meant: { NONE ≡ meaning.none };

    ghost equal_is_same: { (x y : Self) → IsTrue (Self.eq x y) ↔ (x ≡ y) };
}
