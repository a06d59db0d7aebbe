//! The nodes of a file tree: files as bytes, directories as names.
#![tactic(auto)]

mod file_bytes;
mod names;
mod node;
mod nodes;

pub use file_bytes::FileBytes;
pub use names::{Name, Names};
pub use node::{Content, Node};
pub use nodes::Nodes;
