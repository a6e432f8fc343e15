#![tactic(auto)]
//! The program with the command `check` alone, for a stored run that is refused: a program has one stored run, and that of `lbm`
//! is not. All from the words to the exit status is as in `lbm`, but no lattice is run, so that it is built in little time.

use lbm_answer::{End, Report, decide_check, tell};
use lbm_program::{status_of, words_of};
use lbm_store::{FolderStore, StdoutSink, Store};
use lbm_words::{Request, request_of};
use std::alloc::Global;
use std::process::ExitCode;

fn main(rt: HostRuntime) -> ExitCode {
    let words = match words_of(&rt) {
        Ok(words) => words,
        Err(status) => return status,
    };
    let mut store = FolderStore::new(&rt, rt.alloc());
    let mut out = StdoutSink::new(&rt, rt.alloc());
    let end = tell(&mut out, decide(rt.alloc(), &words, &mut store));
    status_of(&end)
}

// Checks a case. Words that ask for anything else are refused.
fn decide<T: Store>(alloc: Global, words: &[String], store: &mut T) -> Result<Report, End> {
    match request_of(alloc, words)? {
        Request::Check(check) => decide_check(alloc, check, store),
        _ => Err(End::Usage),
    }
}
