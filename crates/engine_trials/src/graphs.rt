// The graphs that the trials run over.
use anyhow::{Context, Result};
use propagation::arc_table::ArcTable;

// A chain through all nodes.
pub(crate) fn chain(nodes: usize) -> Result<ArcTable> {
    let mut table = ArcTable::new(nodes).context("no table")?;
    for node in 1..nodes {
        table.set(node - 1, node);
    }
    Ok(table)
}

// A chain that leads back to its first node.
pub(crate) fn circuit(nodes: usize) -> Result<ArcTable> {
    let mut table = chain(nodes)?;
    table.set(nodes.saturating_sub(1), 0);
    Ok(table)
}

// Three nodes, with a short way and a long way from the first to the last.
pub(crate) fn two_ways() -> Result<ArcTable> {
    let mut table = chain(3)?;
    table.set(0, 2);
    Ok(table)
}
