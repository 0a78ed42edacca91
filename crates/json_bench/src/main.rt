//! Reads each line of its input by `serde_json` alone, for bench/replay to measure beside the program.
//! It prints how many lines are JSON.
#![tactic(auto)]

use anyhow::Result;
use serde_json::Value;
use std::alloc::Global;
use std::io::Read;

fn main(rt: HostRuntime) -> Result<()> {
    let mut text = String::new(rt.alloc());
    rt.reader().read_to_string(&mut text)?;
    let read = count_values(rt.alloc(), text.as_str());
    println!(rt; "{read} lines of JSON")?;
    Ok(())
}

// How many lines of a text are JSON.
fn count_values(alloc: Global, text: &str) -> usize {
    text.lines()
        .filter(|line| Value::from_str(alloc, line).is_ok())
        .count()
}
