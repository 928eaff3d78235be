//! Runs each row of the file `rows`, and prints those that are answered otherwise than they say.
#![tactic(auto)]

mod compare;
mod row;
mod shown;
mod tally;
mod text;
mod trial;
mod words;

use crate::tally::Tally;
use std::fs;

fn main(rt: HostRuntime) -> anyhow::Result<()> {
    let alloc = rt.alloc();
    let text = fs::read_to_string(&rt, "rows")?;
    let mut tally = Tally::new(alloc);
    for (place, line) in text.lines().enumerate() {
        tally.take(&rt, (place as u64).saturating_add(1), line)?;
    }
    let (rows, differing) = tally.counts();
    println!(rt; "{rows} rows, {differing} differ")?;
    Ok(())
}
