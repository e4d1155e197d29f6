// Theorems on walks over numbered nodes. Each function answers a number, and its contract is the theorem.
#![tactic(auto)]

ghost use Rattle.std.specs.Prelude.{◌≡◌, ℕ, List, length};
ghost use Rattle.walks.specs.Nodes.{Below, Distinct, FewDistinct, LongWalksSplit, WalksShorten};
ghost use Rattle.walks.specs.Rounds.{Lawful, RoundsJoinWalks, JoinsAreOne, QuietStays};
ghost use Rattle.walks.specs.Reach.{RoundsDecideReach};
ghost use Rattle.walks.specs.Places.{clamped_labels, SettledIsLeast, LeastIsOne, LateRiseIsDriven, SettledOrCircuit, CircuitRefutes, ClosedWalkHasCircuit, PlacesWithin, EndsUnmet};
ghost use Rattle.walks.specs.Sums.{SumsExchange, SpanByNodes};
ghost use Rattle.walks.specs.Flows.{TightIsGreatest, CircuitBetters, LayerIsTight, GreatestOrBetter, LayerTellsGreatest};

// How many nodes below n can stand in a list with none twice: as many as there are.
pub fn most_distinct(n: usize) -> usize
    ensures few { FewDistinct n result }
    ensures attained { (l : List ℕ) × Below n l × Distinct l × (length l ≡ result) }
{
    n
}

// How many arcs make sure that a walk has a circuit in it: as many as there are nodes.
pub fn arcs_to_repeat(nodes: usize) -> usize
    ensures splits { LongWalksSplit nodes result }
{
    most_distinct(nodes)
}

// How many arcs are enough for a walk between two nodes: one fewer than make sure of a circuit.
pub fn arcs_enough(nodes: usize) -> usize
    ensures shortens { WalksShorten nodes result }
{
    let repeating = arcs_to_repeat(nodes);
    repeating.saturating_sub(1)
}

// How many rounds join all walks of so many arcs at the most: as many.
pub fn rounds_to_join<L>(longest: usize) -> usize
    ensures joins { RoundsJoinWalks L longest result }
    ensures one { JoinsAreOne L }
{
    longest
}

// How many rounds without a change show that no later round changes a label: one.
pub fn quiet_rounds<L>() -> usize
    ensures stays { QuietStays L result }
{
    let unchanged = 1;
    unchanged
}

// How many rounds decide which nodes can be reached: as many as a walk between two nodes needs arcs.
pub fn rounds_to_reach(nodes: usize) -> usize
    ensures decides { RoundsDecideReach nodes result }
{
    arcs_enough(nodes)
}

// The round from which on a place changes only where a circuit drives it: that of a walk so long that it has a circuit in it.
pub fn last_round(nodes: usize) -> usize
    ensures least { SettledIsLeast nodes }
    ensures one { LeastIsOne nodes }
    ensures driven { LateRiseIsDriven nodes result }
    ensures either { SettledOrCircuit nodes result }
    ensures refutes { CircuitRefutes nodes }
    ensures circuit { ClosedWalkHasCircuit nodes }
{
    arcs_to_repeat(nodes)
}

// How high places can rise in so many rounds, by gaps of so much at the most: by one gap a round.
pub fn highest_place(gap: u32, rounds: u32) -> u64
    ensures within { PlacesWithin gap rounds result }
    ensures unmet { EndsUnmet gap rounds result }
{
    u64::from(gap) * u64::from(rounds)
}

// Where places end: beyond all that gaps of at most 100 bring about in 128 rounds.
pub fn end_of_places() -> u32
    ensures lawful { Lawful (clamped_labels result) }
    ensures unmet { EndsUnmet 100 128 result }
{
    30_000
}

// How many terms the inner sum has once a double sum is exchanged: as many as the outer one had.
pub fn exchanged_terms<X>(outer: usize) -> usize
    ensures exchanges { SumsExchange X outer result }
{
    outer
}

// How many terms the sum over all arcs of cell times difference has, once it is gathered by nodes: one for each node.
pub fn terms_by_node(size: usize) -> usize
    ensures gathers { SpanByNodes size result }
{
    size
}

// By how much a flow's cells change along a circuit of the flow layer that betters it: by one.
pub fn reroute_by() -> usize
    ensures greatest { TightIsGreatest }
    ensures betters { CircuitBetters result }
{
    1
}

// The round over the flow layer that tells whether the flow is the greatest with its balance: the last.
pub fn telling_round(nodes: usize) -> usize
    ensures tight { LayerIsTight }
    ensures either { GreatestOrBetter }
    ensures tells { LayerTellsGreatest nodes result }
{
    last_round(nodes)
}
