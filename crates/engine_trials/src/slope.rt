// A chain whose arcs all have one gap, which may be negative.
ghost use Rattle.std.specs.Prelude.{◌≤◌, pos, negsuc, ◌≤ℤ◌};

mod telling;

#[derive(Clone, Copy)]
pub(crate) struct Slope {
    nodes: usize,
    gap: i8,
    ghost one_or_more: { 1 ≤ nodes },
    ghost at_most_128: { nodes ≤ 128 },
    ghost low: { negsuc 99 ≤ℤ gap },
    ghost high: { gap ≤ℤ pos 100 },
}
