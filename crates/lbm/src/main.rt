#![tactic(auto)]
//! `lbm run CASE STEPS OUT`: runs the case of a file over so many steps, and writes densities and momenta as a legacy VTK
//! file.

use lbm_flow::run_words;
use lbm_model::NoGate;
use lbm_program::{status_of, words_of};
use lbm_store::{FolderStore, StdoutSink};
use std::process::ExitCode;

fn main(rt: HostRuntime) -> ExitCode {
    let words = match words_of(&rt) {
        Ok(words) => words,
        Err(status) => return status,
    };
    let mut store = FolderStore::new(&rt, rt.alloc());
    let mut out = StdoutSink::new(&rt, rt.alloc());
    let (heap, alloc) = (rt.alloc(), rt.alloc());
    let end = run_words(&rt, heap, alloc, &words, &mut store, &mut out, &NoGate);
    status_of(&end)
}
