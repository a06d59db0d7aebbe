//! Open descriptions (POSIX.1-2017, 3.258), which descriptors refer to.
#![tactic(auto)]

mod description;
mod descriptions;
mod ends;
mod offsets;
mod reading;
mod writing;

pub use description::{Description, Kind};
pub use descriptions::{Descs, OPEN_DESCRIPTIONS};
pub use reading::RIGHT_READ;
pub use writing::{FLAG_APPEND, RIGHT_WRITE};
