// Runs the engine over small and large graphs, and prints what it answers and what its two memories hold.
#![tactic(auto)]

use anyhow::Context;
use graphs::{chain, circuit, two_ways};
use propagation::arc_table::ArcTable;
use propagation::flow_layer::FlowLayer;
use propagation::graph::ConstraintGraph;
use propagation::label::Label;
use propagation::longest::longest_places;
use propagation::place::Place;
use propagation::reaching::reaches;
use run::Run;
use slope::Slope;

mod graphs;
mod run;
mod slope;

fn trial<G: ConstraintGraph>(
    rt: &HostRuntime,
    name: &str,
    graph: &G,
    first: Place,
    others: Place,
) -> anyhow::Result<()> {
    let run = Run::from(graph, first, others);
    println!(rt; "{name}: {run}")?;
    Ok(())
}

// The steepest gaps, up and down.
fn slope_trials(rt: &HostRuntime) -> anyhow::Result<()> {
    let zero = Place::new(0);
    let up = Slope::new(128, 100).context("no slope")?;
    let down = Slope::new(128, -100).context("no slope")?;
    trial(rt, "a slope of 100", &up, zero, zero)?;
    trial(rt, "a slope of -100", &down, zero, zero)?;
    trial(
        rt,
        "a slope of -100, from its first node alone",
        &down,
        zero,
        Place::NONE,
    )
}

// Over two layers: the first has a cell for the arc from 0 to 1, the second for that from 1 to 2.
fn layer_trials(rt: &HostRuntime, table: &ArcTable) -> anyhow::Result<()> {
    let below = [0, 1, 0, 0, 0, 0, 0, 0, 0];
    let above = [0, 0, 0, 0, 0, 1, 0, 0, 0];
    let lower = FlowLayer::new(table, &below);
    let upper = FlowLayer::new(&lower, &above);
    println!(rt;
        "gaps back: {:?}, {:?}, {:?}, {:?}",
        lower.gap(1, 0),
        lower.gap(2, 1),
        upper.gap(1, 0),
        upper.gap(2, 1)
    )?;
    trial(rt, "two layers", &upper, Place::new(0), Place::new(0))?;
    trial(
        rt,
        "two layers, from none",
        &upper,
        Place::NONE,
        Place::NONE,
    )
}

// A flow on the short way while the long way pushes: the circuit gains.
fn short_flow_trial(rt: &HostRuntime, table: &ArcTable) -> anyhow::Result<()> {
    let cells = [0, 0, 1, 0, 0, 0, 0, 0, 0];
    trial(
        rt,
        "flow on the short way",
        &FlowLayer::new(table, &cells),
        Place::new(0),
        Place::new(0),
    )
}

fn reach_trials(rt: &HostRuntime, line: &ArcTable, ring: &ArcTable) -> anyhow::Result<()> {
    println!(rt;
        "along the chain {}, back {}, from a node to itself {}",
        reaches(line, 0, 127),
        reaches(line, 127, 0),
        reaches(line, 5, 5)
    )?;
    println!(rt;
        "around the circuit {}, no nodes {} {}",
        reaches(ring, 1, 1),
        reaches(ring, 0, 3),
        reaches(ring, 3, 0)
    )?;
    Ok(())
}

fn place_trials(rt: &HostRuntime, line: &ArcTable, ring: &ArcTable) -> anyhow::Result<()> {
    let mut three = [Place::NONE; 3];
    println!(rt;
        "longest on the circuit: {:?}",
        longest_places(ring, &mut three)
    )?;
    println!(rt;
        "longest in the wrong memory: {:?}, {:?}",
        longest_places(line, &mut three),
        three[2]
    )?;
    Ok(())
}

fn thin_calls(rt: &HostRuntime) -> anyhow::Result<()> {
    let line = chain(128)?;
    let ring = circuit(3)?;
    reach_trials(rt, &line, &ring)?;
    place_trials(rt, &line, &ring)
}

// Graphs of one node, of 128 nodes and with circuits, from places and from none.
fn table_trials(rt: &HostRuntime) -> anyhow::Result<()> {
    let zero = Place::new(0);
    let far = Place::new(32_000);
    trial(rt, "one node", &chain(1)?, zero, zero)?;
    trial(
        rt,
        "one node with an arc to itself",
        &circuit(1)?,
        zero,
        zero,
    )?;
    trial(rt, "a chain of 128", &chain(128)?, zero, zero)?;
    trial(
        rt,
        "a chain of 128, from its first node alone",
        &chain(128)?,
        zero,
        Place::NONE,
    )?;
    trial(
        rt,
        "a chain of 128, from none",
        &chain(128)?,
        Place::NONE,
        Place::NONE,
    )?;
    trial(rt, "a circuit of 128", &circuit(128)?, zero, zero)?;
    trial(
        rt,
        "a circuit at the end of the line",
        &circuit(3)?,
        far,
        far,
    )
}

fn main(rt: HostRuntime) -> anyhow::Result<()> {
    table_trials(&rt)?;
    slope_trials(&rt)?;
    let ways = two_ways()?;
    let misfit = Run::misfit(&ways, Place::new(5));
    println!(rt; "a second memory too long: {misfit}")?;
    layer_trials(&rt, &ways)?;
    short_flow_trial(&rt, &ways)?;
    thin_calls(&rt)
}
