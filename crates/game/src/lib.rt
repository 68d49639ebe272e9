//! The safety game of a traffic: which states are safe from a jam, and what may be done in them.
//!
//! Begin with the definitions: `specs/Game.antt` has the rounds, the marks and the permitted moves, `specs/Plays.antt` the
//! plays and the rules, and `specs/Laws.antt` what the ones say of the others. `solution` fills a caller's map with the marks
//! of all states; `board` answers about a state from such a map. Both are written once, for every traffic.
#![tactic(auto)]

pub mod board;
pub mod map_fault;
mod marks;
mod round;
pub mod solution;
mod standing;
mod support;
pub mod words;
