//! The linear memory of a guest process (WebAssembly Core 1.0, 4.2.8): loads and stores, the atomic accesses of the threads
//! proposal, ranges copied out and written in, growth, and copies of the whole. Nothing outside the crate sees where the
//! bytes lie.
#![tactic(auto)]

mod fault;
mod memory;
mod storage;

pub use fault::RangeFault;
pub use memory::Memory;
