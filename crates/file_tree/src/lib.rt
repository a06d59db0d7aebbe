//! A file tree in memory: paths, names, files and directories (POSIX.1-2017, 4.13).
#![tactic(auto)]

mod edits;
mod files;
mod list;
mod listing;
mod path;
mod place;
mod tree;
mod walk;

pub use listing::{Listed, Listing, Stat};
pub use place::Place;
pub use tree::Tree;
