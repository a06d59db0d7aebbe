//! Facts about finite maps and options that the tables of the host share.
#![tactic(auto)]
