//! What numeric instructions give, on the values that lie on a thread's stack: an i32 as a `u64`
//! below 2^32, an i64 as a `u64` (WebAssembly Core 1.0, section 4.4.1). One function for each kind
//! of instruction picks the operator of `int_ops`. No function allocates.
#![tactic(auto)]

mod arithmetic;
mod comparison;
mod conversion;

pub use arithmetic::{binary, unary};
pub use comparison::{compare, test};
pub use conversion::{convert, extend_loaded};
