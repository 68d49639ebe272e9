//! One slot: a move is picked and granted, and the next state is reported. Each call is given the traffic and the map.

/// Ready for a grant in the state that it holds.
#[derive(Drop)]
pub struct Ready {
    pub(crate) state: usize,
}

/// Waiting for the report of the next state, since `mv` was granted in `state`.
#[derive(Drop)]
pub struct Waiting {
    pub(crate) state: usize,
    pub(crate) mv: usize,
}

pub mod granting;
pub mod reporting;
