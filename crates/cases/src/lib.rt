//! What a table of cases is written in, bytes in hex, marks in runs and lines in one, and how maps and buffers are compared
//! with it.
#![tactic(auto)]

pub mod buffer;
pub mod difference;
pub mod hex;
pub mod lines;
pub mod runs;
