//! The descriptor numbers of one process.
#![tactic(auto)]

mod dropped;
mod table;

pub use dropped::Dropped;
pub use table::{DESCRIPTORS, Descriptor, FdTable};
