// Runs of the engine that a benchmark calls: each answers how many of its runs came to a yes.
#![tactic(auto)]

ghost use Rattle.std.specs.Prelude.{◌≤◌};

use propagation::arc_table::ArcTable;
use propagation::flow_layer::FlowLayer;
use propagation::graph::{ConstraintGraph, MOST_NODES};
use propagation::label::Label;
use propagation::longest::longest_places;
use propagation::place::Place;
use propagation::reaching::reaches;

// A chain through all nodes, and about every fourth of the arcs that shorten it.
fn linked(nodes: usize) -> Option<ArcTable> {
    let mut table = ArcTable::new(nodes)?;
    for from in 0..nodes {
        for to in from + 1..nodes {
            if to - from == 1 || (from * 7 + to * 3) % 4 == 0 {
                table.set(from, to);
            }
        }
    }
    Some(table)
}

// One in each cell of the chain.
fn flow_along(table: &ArcTable, cells: &mut [u8]) {
    let nodes = table.nodes();
    for (from, row) in cells.chunks_mut(nodes).take(nodes).enumerate() {
        if let Some(cell) = row.get_mut(from + 1) {
            *cell = 1;
        }
    }
}

// How many of so many runs come to a yes.
fn yes_count<F: FnMut() -> bool>(times: u32, mut run: F) -> u32
    requires { F.IsAlwaysCallable run }
    ensures { result ≤ times }
{
    // A loop, and no chain: the proof that a filter may call the caller's closure at each number does not close.
    let mut count = 0;
    for _run in 0..times {
        count += u32::from(run());
    }
    count
}

// Longest places, so many times.
fn settled<G: ConstraintGraph>(graph: &G, times: u32) -> u32
    ensures { result ≤ times }
{
    // fixed memory, here and for the cells: a call from C hands in no allocator
    let mut memory = [Place::NONE; MOST_NODES];
    let places = &mut memory[0..graph.nodes()];
    yes_count(times, || longest_places(graph, places) == Ok(true))
}

#[unsafe(no_mangle)]
pub extern "C" fn places_over_table(nodes: usize, times: u32) -> u32
    ensures { result ≤ times }
{
    match linked(nodes) {
        Some(table) => settled(&table, times),
        None => 0,
    }
}

#[unsafe(no_mangle)]
pub extern "C" fn places_over_layer(nodes: usize, times: u32) -> u32
    ensures { result ≤ times }
{
    match linked(nodes) {
        Some(table) => {
            let mut cells = [0; MOST_NODES * MOST_NODES];
            flow_along(&table, &mut cells);
            settled(&FlowLayer::new(&table, &cells), times)
        }
        None => 0,
    }
}

// Whether the last node is reached from the first, so many times.
#[unsafe(no_mangle)]
pub extern "C" fn reaches_over_table(nodes: usize, times: u32) -> u32
    ensures { result ≤ times }
{
    match linked(nodes) {
        Some(table) => {
            let last = table.nodes() - 1;
            yes_count(times, || reaches(&table, 0, last))
        }
        None => 0,
    }
}
