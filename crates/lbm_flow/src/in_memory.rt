// The top call over files in memory that never fail.
ghost use Rattle.std.specs.Prelude.{◌≡◌, ◌⊎◌, map, string_bytes};
ghost use Rattle.lbm_store.specs.Memory.{sure_files, sure_sink, sure_store};
ghost use Rattle.lbm_words.specs.Words.{request_of};
ghost use Rattle.lbm_answer.specs.declared.answer.End.TheVariants.{Memory};
ghost use Rattle.lbm_answer.specs.Answer.{Answers};
ghost use Rattle.lbm_answer.specs.Complete.{answer_to};

use crate::{End, run_words};
use lbm_model::Gate;
use lbm_store::{SureSink, SureStore};
use std::alloc::{Allocator, Global};
use std::marker::Sync;
use std::thread::Threads;

/// Does what the words ask for, as `run_words` does, over files in memory that never fail. The answer is that of the
/// plain definition, or want of memory.
pub fn run_in_memory<A: Allocator + Copy, G: Gate, R: Threads + Sync>(
    rt: &R,
    alloc: Global,
    heap: A,
    words: &[String],
    store: &mut SureStore,
    out: &mut SureSink,
    gate: &G,
) -> End
    ensures answer { Answers (map string_bytes words.now) (sure_store store.old) (sure_store store.new) (sure_sink out.old) (sure_sink out.new) result }
    ensures complete { (result ≡ answer_to (request_of (map string_bytes words.now)) (sure_files store.old)) ⊎ (result ≡ Memory) }
{
    run_words::<SureStore, SureSink, A, G, R>(rt, alloc, heap, words, store, out, gate)
}
