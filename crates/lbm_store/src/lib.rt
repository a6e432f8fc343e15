//! The outside: stores of files by name and sinks of bytes, each of which counts how often it has failed.
#![tactic(auto)]

mod calls;
mod counts;
mod folder;
mod map_store;
mod memory_sinks;
mod named;
mod named_files;
mod outside;
mod pieces;
mod stdout;
mod sure_store;

pub use folder::FolderStore;
pub use map_store::MapStore;
pub use memory_sinks::{SureSink, VecSink};
pub use named::Named;
pub use outside::{IoEnd, Sink, Store};
pub use pieces::Pieces;
pub use stdout::StdoutSink;
pub use sure_store::SureStore;
