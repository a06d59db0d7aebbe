//! Boot images: a file tree as bytes (the format WXI1).
#![tactic(auto)]

mod fault;
mod found;
mod item;
mod laws;
mod paths;
mod read;
mod write;

pub use fault::ImageFault;
pub use laws::{one_image, written_is_read};
pub use paths::plain_parts;
pub use read::{make_directory, make_file, read_image};
pub use write::write_image;
