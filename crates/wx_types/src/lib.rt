//! The types that every crate of the host shares, and the traits of the outside.
#![tactic(auto)]

mod byte_list;
mod entries;
mod errors;
mod memory_plan;
mod memory_shelf;
mod memory_sink;
mod memory_source;
mod outside;
mod requests;
mod text_list;

pub use byte_list::Bytes;
pub use entries::{Entry, Outcome, Place};
pub use errors::{Errno, Failed, Refusal, ShelfError};
pub use memory_shelf::MemShelf;
pub use memory_sink::MemSink;
pub use memory_source::MemSource;
pub use outside::{Shelf, Sink, Source, write_whole};
pub use requests::{NodeKind, Request, Task};
pub use text_list::Texts;
