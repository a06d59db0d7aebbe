//! The requests that the calls of a guest make, and the replies to them in its memory.
#![tactic(auto)]

mod buffers;
mod replies;
mod requests;

pub use replies::apply;
pub use requests::{FD_WRITE, request_laws, request_of};
