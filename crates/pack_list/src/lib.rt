//! Pack lists: which directories and files a file tree is to have.
#![tactic(auto)]

mod fault;
mod judging;
mod lines;

pub use fault::ListFault;
pub use judging::{Named, PackList, judge};
