//! Courses of checks on one channel: slots that an armed keeper runs, the play into a jam where there is no schedule, and
//! what a course came to.
//!
//! A course is noted in a record that the caller lends: for each check the state, the move made in it, and the state that
//! the plants replied. The plants reply by one rule: as the spoiler where it has an answer, and else the lowest next state.
#![tactic(auto)]

pub mod account;
pub mod check;
pub mod lost;
mod plants;
pub mod slots;
pub mod words;
