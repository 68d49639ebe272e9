//! A traffic that counts what it is asked.
use std::cell::Cell;
use std::fmt;
use traffic::{Size, Traffic};

/// Answers as the traffic in it, and counts how often each question is asked.
#[derive(Drop)]
pub struct Counted<'a, T> {
    traffic: &'a T,
    size: Cell<u32>,
    due: Cell<u32>,
    legal: Cell<u32>,
    next: Cell<u32>,
}

fn count(asked: &Cell<u32>) {
    asked.set(asked.get().saturating_add(1));
}

impl<'a, T> Counted<'a, T> {
    pub fn new(traffic: &'a T) -> Counted<'a, T> {
        Counted {
            traffic,
            size: Cell::new(0),
            due: Cell::new(0),
            legal: Cell::new(0),
            next: Cell::new(0),
        }
    }
}

impl<T: Traffic> Traffic for Counted<'_, T> {
    ghost meaning = { λ c. T.Traffic.meaning c.traffic.now };

    ghost lawful = { λ c. T.Traffic.lawful c.traffic.now };

    fn size(&self) -> Option<Size> {
        count(&self.size);
        self.traffic.size()
    }

    fn due(&self, state: usize) -> Option<usize> {
        count(&self.due);
        self.traffic.due(state)
    }

    fn is_legal(&self, state: usize, mv: usize) -> bool {
        count(&self.legal);
        self.traffic.is_legal(state, mv)
    }

    fn next_from(&self, state: usize, mv: usize, from: usize) -> Option<usize> {
        count(&self.next);
        self.traffic.next_from(state, mv, from)
    }
}

impl<T> fmt::Display for Counted<'_, T> {
    fn fmt<W: fmt::Write>(&self, f: &mut fmt::Formatter<W>) -> fmt::Result {
        let size = self.size.get();
        let due = self.due.get();
        let legal = self.legal.get();
        let next = self.next.get();
        write!(
            f,
            "size {size}, due {due}, legal {legal}, next state {next}"
        )
    }
}
