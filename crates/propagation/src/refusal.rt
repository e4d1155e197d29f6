// Why the engine refuses to run.
ghost use Rattle.std.specs.Prelude.{◌≡◌};
ghost use Rattle.propagation.specs.Refusals.{numbered};

#[derive(Clone, Copy, Debug, PartialEq, Eq)]
pub enum Refusal {
    // a memory that has not one label for each node
    WrongMemory,
}

// The number under which the rules list it.
impl From<Refusal> for usize {
    ghost from_gives = { λ refusal n. n ≡ numbered refusal };

    fn from(refusal: Refusal) -> usize {
        match refusal {
            Refusal::WrongMemory => 12,
        }
    }
}
