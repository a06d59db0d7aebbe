//! Numbers and byte ranges, read one after the other from the front of a slice.
//!
//! The variable-length numbers are those of WebAssembly Core 1.0, section 5.2.2 (LEB128): a number
//! of N bits takes at most ceil(N / 7) bytes, may be spelled longer than it needs within that
//! bound, and the unused bits of its last byte are zero, or copies of the sign.
#![tactic(auto)]

mod cursor;
mod leb;

pub use cursor::Cursor;
pub use leb::{CursorFault, signed_has_one_form, unsigned_has_one_form};
