//! A check: a state, the move made in it, and the state that the plants replied.

#[derive(Clone, Copy, PartialEq, Eq, Debug)]
pub struct Check {
    pub state: usize,
    pub mv: usize,
    pub next: usize,
}

/// Stands in a record's place until its check is noted.
pub const UNUSED: Check = Check {
    state: 0,
    mv: 0,
    next: 0,
};
