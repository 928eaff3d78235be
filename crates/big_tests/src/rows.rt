//! Small loads with their summaries, and a large one with what it adds up to.

use big_system::{is_in_limits, write_big};
use std::alloc::Global;
use std::test::Fail;

/// The numbers of a load, and its summary with a `/` for each line feed.
const ROWS: [(u64, u64, u64, &str); 4] = [
    (
        3,
        12,
        0,
        "big 3 12 0/fired 6/blocked 3/seen 3/local N 1/local T 1/local C 1/done/",
    ),
    (
        4,
        8,
        0,
        "big 4 8 0/fired 5/blocked 2/seen 1/local N 0/local T 3/local C 1/done/",
    ),
    (
        1024,
        65536,
        1,
        "big 1024 65536 1/fired 2089/blocked 31724/seen 31723/local N 7/local T 1013/local C 4/done/",
    ),
    (
        1024,
        65536,
        1,
        "big 1024 65536 1/fired 2089/blocked 31724/seen 31723/local N 7/local T 1013/local C 4/done/",
    ),
];

#[test]
fn rows_have_their_summaries(rt: HostRuntime) -> Result<(), Fail> {
    for (count, rounds, seed, summary) in ROWS {
        let text = summary_of(rt.alloc(), count, rounds, seed)?;
        assert_eq!(rt; text.as_str(), summary);
    }
    Ok(())
}

fn summary_of(alloc: Global, count: u64, rounds: u64, seed: u64) -> Result<String, Fail> {
    if !is_in_limits(count, rounds) {
        return Err(Fail::from("numbers within the limits"));
    }
    let mut text = Vec::new(alloc);
    write_big(alloc, count, rounds, seed, &mut text)?;
    let text = String::from_utf8_lossy(alloc, &text)?;
    Ok(text.as_str().replace(alloc, "\n", "/")?)
}
