//! The keeper of a channel: ready to grant a move, or waiting for the report of the next state.
//!
//! Synthesis arms a ready keeper where the start is safe. A grant turns it into a waiting keeper, and a report turns that
//! into a ready one again. Neither can be copied, and one comes only from arming, a grant or a report.
#![tactic(auto)]

pub mod arming;
pub mod service;
pub mod serving;
pub mod slot;
pub mod slot_fault;
pub mod words;
