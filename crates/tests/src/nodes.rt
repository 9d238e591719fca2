//! Nodes, step by step: what they tell, and what they send. Tests of `node`, and by its steps of `synod`, `acceptor`, `learner`,
//! `proposer`, `node_model` and what they use of `wire`.
//!
//! Steps are a text: each line a step, and behind `>` what is told of it, where something is.

mod checkpoints;
mod faults;
mod foreign;
mod letters;
mod limits;
mod longest_snapshot;
mod losses;
mod news;
mod node_text;
mod promises;
mod runs;
mod snapshots;
mod test_nodes;

use std::alloc::Global;
use std::process::Abort;
use std::test::Fail;
use test_nodes::TestNodes;

/// Takes the steps of each text in order, by as many nodes as stand beside it: each tells what stands behind it.
fn tables_hold(rt: &impl Abort, alloc: Global, tables: &[(u8, &str)]) -> Result<(), Fail> {
    for (nodes, rows) in tables {
        rows_hold(rt, alloc, *nodes, rows)?;
    }
    Ok(())
}

/// The same, of one text.
fn rows_hold(rt: &impl Abort, alloc: Global, nodes: u8, rows: &str) -> Result<(), Fail> {
    let mut nodes_under_test = TestNodes::new(alloc, nodes)?;
    rows_follow(rt, alloc, &mut nodes_under_test, rows)
}

/// The same, of a fleet that has begun.
fn rows_follow(
    rt: &impl Abort,
    alloc: Global,
    nodes_under_test: &mut TestNodes,
    rows: &str,
) -> Result<(), Fail> {
    for row in rows.lines() {
        row_follows(rt, alloc, nodes_under_test, row)?;
    }
    Ok(())
}

/// The same, of one row.
fn row_follows(
    rt: &impl Abort,
    alloc: Global,
    nodes_under_test: &mut TestNodes,
    row: &str,
) -> Result<(), Fail> {
    let (step, expected) = row.split_once(" > ").unwrap_or((row, ""));
    let told = nodes_under_test.take(alloc, step)?;
    assert_eq!(rt; told.as_str(), expected, "at {step}");
    Ok(())
}
