#![tactic(auto)]
//! Reads a table of trials from standard input, puts each to the solver's top call over files in memory, and prints a
//! line for each: `ok NAME`, or `differs NAME: LINE` with the first line of the trial that does not hold.
//!
//! The table itself says what its lines mean.

mod bytes;
mod choice;
mod line;
mod setting;
mod stop;
mod trial;

use crate::trial::Trial;
use std::io;
use std::io::{BufRead, BufReader};

fn main(rt: HostRuntime) -> io::Result<()> {
    let trials = read_table(&rt)?;
    let mut differing = 0u64;
    for trial in trials.iter() {
        if !trial.holds(&rt)? {
            differing = differing.saturating_add(1);
        }
    }
    let count = trials.len();
    println!(rt; "{count} trials, {differing} differ")
}

// The trials of the table. A line before the first trial says nothing.
fn read_table<R: Input + AllocGlobal>(rt: &R) -> io::Result<Vec<Trial>> {
    let alloc = rt.alloc();
    let mut trials: Vec<Trial> = Vec::new(alloc);
    for line in BufReader::new(alloc, rt.reader())?.lines(alloc) {
        let line = line?;
        if let Some(name) = line.strip_prefix("trial ") {
            trials.push(Trial::new(alloc, name)?)?;
        } else if let Some(trial) = trials.last_mut() {
            trial.add(alloc, line)?;
        }
    }
    Ok(trials)
}
