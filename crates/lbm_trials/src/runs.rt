// A run of a case through the top call, over files in memory.
use crate::watch::Watch;
use lbm_flow::{End, run_words};
use lbm_store::{MapStore, VecSink};
use std::alloc::{AllocError, Global};
use std::marker::Sync;
use std::test::Fail;
use std::thread::Threads;

// The words of a line, with a space between each two of them.
pub(crate) fn words_of(alloc: Global, line: &str) -> Result<Vec<String>, AllocError> {
    let mut words = Vec::new(alloc);
    for word in line.split(" ") {
        words.push(String::from_str(alloc, word)?)?;
    }
    Ok(words)
}

// What a run of the case in the file c to its last step writes to the file o, and what it tells, without the line's end.
pub(crate) fn ran<R: Threads + Sync>(
    rt: &R,
    alloc: Global,
    case: &str,
    line: &str,
    gate: &Watch,
) -> Result<(String, String), Fail> {
    let mut store = MapStore::new(alloc, Vec::new(alloc));
    store.put("c", case.as_bytes())?;
    let mut sink = VecSink::new(alloc, Vec::new(alloc));
    let words = words_of(alloc, line)?;
    if run_words(rt, alloc, alloc, &words, &mut store, &mut sink, gate) != End::Done {
        return Err("the run ends at its last step".into());
    }
    let file = str::from_utf8(store.bytes("o").unwrap_or(b""))?;
    let told = str::from_utf8(sink.bytes())?;
    Ok((
        String::from_str(alloc, file)?,
        String::from_str(alloc, told.trim_end())?,
    ))
}
