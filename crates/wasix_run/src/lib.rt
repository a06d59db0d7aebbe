//! The top calls of the host: words, files and streams in, a journal and an exit status out.
#![tactic(auto)]

mod asm;
mod file_fault;
mod file_shelf;
mod line;
mod load;
mod pack;
mod print;
mod reason;
mod report;
mod serial;
mod streams;

pub use file_shelf::FileShelf;
pub use reason::Reason;
pub use serial::{Ended, wasix_serial};
pub use streams::{StreamSink, StreamSource};
