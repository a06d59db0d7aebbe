//! What the kernel answers to a turn of a guest thread.
#![tactic(auto)]
