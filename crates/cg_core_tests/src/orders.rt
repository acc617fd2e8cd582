// The order by rank of a graph of four nodes, and what is reached in one of five.
#![tactic(auto)]

use cg_base::Memory;
use cg_graphs::{by_rank, reached};
use std::alloc::Global;
use std::test::Fail;

fn graph(alloc: Global, rows: &[&[u32]]) -> Result<Vec<Vec<u32>>, Memory> {
    let mut edges = Vec::new(alloc);
    for targets in rows {
        let mut row = Vec::new(alloc);
        row.extend_from_slice(targets)?;
        edges.push(row)?;
    }
    Ok(edges)
}

/// The first node mentions the third and the second, and the second mentions the last.
#[test]
fn each_stands_behind_its_mentions(rt: HostRuntime) -> Result<(), Fail> {
    let alloc = rt.alloc();
    let rows = [
        [2, 1].as_slice(),
        [3].as_slice(),
        [].as_slice(),
        [].as_slice(),
    ];
    let edges = graph(alloc, rows.as_slice())?;
    let order = by_rank(alloc, edges.as_slice())?;
    assert_eq!(rt; order.as_slice(), [2, 3, 1, 0].as_slice());
    Ok(())
}

/// The first node mentions the third and one that there isn't, the third mentions itself and the last, and the last mentions the third.
#[test]
fn marks_what_is_reached(rt: HostRuntime) -> Result<(), Fail> {
    let alloc = rt.alloc();
    let rows = [
        [2, 9].as_slice(),
        [0].as_slice(),
        [2, 4].as_slice(),
        [1].as_slice(),
        [2].as_slice(),
    ];
    let edges = graph(alloc, rows.as_slice())?;
    let marks = reached(alloc, edges.as_slice(), 0)?;
    assert_eq!(rt;
        marks.as_slice(),
        [true, false, true, false, true].as_slice()
    );
    Ok(())
}
