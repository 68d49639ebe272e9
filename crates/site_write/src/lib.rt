//! The writer of site files: from a site to the bytes of its one file, in a buffer of the caller's.
#![tactic(auto)]

mod length;
mod paste;
pub mod write;
mod written;
