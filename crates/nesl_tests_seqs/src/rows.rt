//! The rows of all functions on sequences.
use crate::told::all_hold;
use crate::{empties, extremes, levels, numbers, pairs, parts, places, reductions, scans, shapes};
use std::test::Fail;

const ROWS: [&str; 10] = [
    empties::ROWS,
    extremes::ROWS,
    levels::ROWS,
    numbers::ROWS,
    pairs::ROWS,
    parts::ROWS,
    places::ROWS,
    reductions::ROWS,
    scans::ROWS,
    shapes::ROWS,
];

#[test]
fn rows_hold(rt: HostRuntime) -> Result<(), Fail> {
    for rows in ROWS {
        all_hold(rt.alloc(), rows)?;
    }
    Ok(())
}
