//! A refusal in words.
ghost use Rattle.std.specs.Prelude.{Some};
ghost use Rattle.game.specs.Words.{refusal_words};

use crate::solution::{Refusal, Tally};
use std::fmt;

impl fmt::Display for Refusal {
    ghost output = { λ r. Some (refusal_words r) };

    fn fmt<W: fmt::Write>(&self, f: &mut fmt::Formatter<W>) -> fmt::Result {
        match self {
            Refusal::NoSchedule {
                count,
                tally: Tally { winning, rounds },
            } => write!(
                f,
                "no schedule: count {count}, winning {winning}, rounds {rounds}"
            ),
            Refusal::Map(fault) => {
                let number = fault.number();
                write!(f, "refused {number}")
            }
        }
    }
}
