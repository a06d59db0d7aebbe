//! One step of a guest thread, row by row (WebAssembly Core 1.0, section 4.4, and the threads proposal).
#![tactic(auto)]
