//! What a trial has made so far.

use crate::bytes::number_of;
use crate::choice::parts;
use crate::line::hold;
use crate::stop::Stop;
use lbm_flow::run_words;
use lbm_model::NoGate;
use lbm_store::{MapStore, VecSink};
use linked_list_allocator::LocalHeap;
use std::alloc::Global;
use std::marker::Sync;
use std::thread::Threads;

// The file that holds what the last answer told.
const TOLD: &str = "told";

// The size of the lattice's heap, where a trial sets none. One type of heap is all that trials need: for each type the compiler builds
// the run of every pattern in every velocity set anew.
const HEAP: usize = 67_108_864;

/// The files of a trial, and what is to fail.
#[derive(Drop)]
pub struct Setting {
    pub alloc: Global,
    pub store: MapStore,
    // The file that lines are added to.
    file: String,
    // The write of each answer's sink that is to fail.
    failing: Option<u64>,
    // The size of the lattice's heap.
    heap: usize,
    /// The status of the last answer.
    pub status: Option<u8>,
}

impl Setting {
    /// No files, and nothing that fails.
    pub fn new(alloc: Global) -> Setting {
        Setting {
            alloc,
            store: MapStore::new(alloc, Vec::new(alloc)),
            file: String::new(alloc),
            failing: None,
            heap: HEAP,
            status: None,
        }
    }

    /// Takes all files away. From here on the store's call with this number fails, counted from 0.
    pub fn fail_store(&mut self, call: usize) -> Result<(), Stop> {
        let mut failing = Vec::new(self.alloc);
        failing.push(call as u64)?;
        self.store = MapStore::new(self.alloc, failing);
        Ok(())
    }

    /// From here on the write with this number fails, counted from 0 in each answer's sink.
    pub fn fail_sink(&mut self, call: usize) {
        self.failing = Some(call as u64);
    }

    /// From here on the lattice's heap has this size.
    pub fn limit_heap(&mut self, size: usize) {
        self.heap = size;
    }

    /// Makes a file hold these bytes, and lines are added to it from here on.
    pub fn begin(&mut self, name: &str, bytes: &[u8]) -> Result<(), Stop> {
        self.file = String::from_str(self.alloc, name)?;
        self.store.put(name, bytes)?;
        Ok(())
    }

    /// Adds bytes to the file that was begun last.
    pub fn add(&mut self, more: &[u8]) -> Result<(), Stop> {
        let mut bytes = self.copied(&self.file)?;
        bytes.extend_from_slice(more)?;
        self.store.put(&self.file, &bytes)?;
        Ok(())
    }

    /// The bytes of a file.
    pub fn copied(&self, name: &str) -> Result<Vec<u8>, Stop> {
        let bytes = self.store.bytes(name).ok_or(Stop::Unread)?;
        Ok(Vec::from_slice(self.alloc, bytes)?)
    }

    /// `WORDS => STATUS LINE` puts the words to the solver, and compares its answer's status and what it told.
    pub fn ask<R: Threads + Sync>(&mut self, rt: &R, line: &str) -> Result<(), Stop> {
        let (words, wanted) = line.split_once("=> ").ok_or(Stop::Unread)?;
        let words = match words.strip_suffix(' ') {
            Some(words) => parts(self.alloc, words, " ")?,
            None => Vec::new(self.alloc),
        };
        let status = self.answer(rt, &words)?;
        self.status = Some(status);
        let (wanted, line) = wanted.split_once(' ').unwrap_or((wanted, ""));
        let fits = line.is_empty() || is_told(self.told(), line);
        hold(number_of(wanted)? == usize::from(status) && fits)
    }

    /// What the last answer told.
    pub fn told(&self) -> &[u8] {
        self.store.bytes(TOLD).unwrap_or(b"")
    }

    // The status of the solver's answer.
    fn answer<R: Threads + Sync>(&mut self, rt: &R, words: &[String]) -> Result<u8, Stop> {
        let alloc = self.alloc;
        let heap = LocalHeap::new(alloc, self.heap)?;
        let mut failing = Vec::new(alloc);
        if let Some(call) = self.failing {
            failing.push(call)?;
        }
        let mut sink = VecSink::new(alloc, failing);
        let end = run_words(rt, alloc, &heap, words, &mut self.store, &mut sink, &NoGate);
        self.store.put(TOLD, sink.bytes())?;
        Ok(end.status())
    }
}

// Whether what was told is the wanted line, in which `...` stands for any text, and a line feed.
fn is_told(told: &[u8], wanted: &str) -> bool {
    let Some(told) = told.strip_suffix(b"\n") else {
        return false;
    };
    match wanted.split_once("...") {
        None => told == wanted.as_bytes(),
        Some((front, back)) => match told.strip_prefix(front.as_bytes()) {
            Some(rest) => rest.ends_with(back.as_bytes()),
            None => false,
        },
    }
}
