//! The outside: where bytes come from and where they go.
//!
//! A `Shelf` gives the bytes of files by name, and a `Sink` takes bytes. Each counts its faults, so
//! that a caller can show the cause of a failure: it fails only where its count rose. A shelf also
//! counts the bytes that it gave. `read_whole` and `write_whole` are all that the layers above call.
//!
//! `MemoryShelf` and `MemorySink` tell what they hold, and fail where a test wants it. `FolderShelf`
//! and `StdSink` are the thin adapters over the system's files and streams. They tell only their
//! counts: what a real file or stream holds is outside of what is proved.
//!
//! A `Gate` is told of each leaf of a job before it begins, and changes no answer.
#![tactic(auto)]

mod calls;
mod failed;
mod folder_shelf;
mod gate;
mod memory_shelf;
mod memory_sink;
mod shelf;
mod sink;
mod std_sink;
mod whole;

pub use failed::Failed;
pub use folder_shelf::FolderShelf;
pub use gate::{Gate, OpenGate};
pub use memory_shelf::{MemoryShelf, Named};
pub use memory_sink::MemorySink;
pub use shelf::Shelf;
pub use sink::Sink;
pub use std_sink::StdSink;
pub use whole::{ReadStop, read_whole, write_whole};
