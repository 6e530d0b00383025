//! Measures the crates: each workload is run, and its name, its number of operations and the nanoseconds of one are
//! printed. With the word `--list` the names alone are printed; with names these are run alone.
#![tactic(auto)]

mod buffers;
mod checks;
mod devices;
mod histories;
mod images;
mod locks;
mod logs;
mod plans;
mod records;
mod tables;
mod threads;
mod trees;
mod workload;
mod worlds;

use crate::workload::ALL;
use std::env;
use std::time::Instant;

fn main(rt: HostRuntime) -> anyhow::Result<()> {
    let words: Vec<String> = env::args(&rt)?.collect(rt.alloc())?;
    let words = words.as_slice();
    let list = has(words, "--list");
    for (name, workload) in ALL {
        if list {
            println!(rt; "{name}")?;
        } else if words.len() <= 1 || has(words, name) {
            let start = Instant::now(&rt)?;
            let operations = workload.run(&rt, rt.alloc())?;
            let tenths = start.elapsed(&rt)?.as_nanos().saturating_mul(10);
            let tenths = tenths.checked_div(u128::from(operations)).unwrap_or(0);
            println!(rt; "{name} {operations} {}.{}", tenths / 10, tenths % 10)?;
        }
    }
    Ok(())
}

fn has(words: &[String], name: &str) -> bool {
    words.iter().any(|word| word.as_str() == name)
}
