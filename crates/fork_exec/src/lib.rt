//! A process: one memory, its guest threads by their numbers, and the program that it runs.
#![tactic(auto)]
