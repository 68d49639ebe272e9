//! The map that a solved site is expected to leave.
use cases::runs::{Run, map_of};
use std::alloc::{AllocError, Global};

/// How many marks a map has room for.
pub const ROOM: usize = 32768;

/// What every place of a map holds before, and the places behind the states hold afterwards too.
pub const UNMARKED: u16 = 0xA5A5;

/// The map that is expected where the states have these marks, or none where they are more than a map has room for.
pub fn expected_map(heap: Global, runs: &[Run]) -> Result<Option<Vec<u16>>, AllocError> {
    map_of(heap, runs, ROOM, UNMARKED)
}
