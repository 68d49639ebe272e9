//! Calls, answers and keepers in words.
ghost use Rattle.std.specs.Prelude.{Some};
ghost use Rattle.keeper.specs.Words.{call_words, answer_words, keeper_words};

use crate::service::{Answer, Call, Keeper};
use std::fmt;

impl fmt::Display for Call {
    ghost output = { λ c. Some (call_words c) };

    fn fmt<W: fmt::Write>(&self, f: &mut fmt::Formatter<W>) -> fmt::Result {
        match self {
            Call::Permits(mv) => write!(f, "permits {mv}"),
            Call::Pick => write!(f, "pick"),
            Call::Grant(mv) => write!(f, "grant {mv}"),
            Call::Report(state) => write!(f, "report {state}"),
            Call::PermitsIn { state, mv } => write!(f, "permits {mv} in {state}"),
            Call::Spoiler { state, mv } => write!(f, "spoiler {mv} in {state}"),
        }
    }
}

impl fmt::Display for Answer {
    ghost output = { λ a. Some (answer_words a) };

    fn fmt<W: fmt::Write>(&self, f: &mut fmt::Formatter<W>) -> fmt::Result {
        match self {
            Answer::Permitted(true) => write!(f, "yes"),
            Answer::Permitted(false) => write!(f, "no"),
            Answer::Picked(Some(mv)) => write!(f, "move {mv}"),
            Answer::Spoiled(Some(state)) => write!(f, "state {state}"),
            Answer::Picked(None) | Answer::Spoiled(None) => write!(f, "none"),
            Answer::Granted => write!(f, "granted"),
            Answer::Taken => write!(f, "taken"),
            Answer::Refused(fault) => {
                let number = fault.number();
                write!(f, "refused {number}")
            }
            Answer::OutOfTurn => write!(f, "out of turn"),
        }
    }
}

impl fmt::Display for Keeper {
    ghost output = { λ k. Some (keeper_words k) };

    fn fmt<W: fmt::Write>(&self, f: &mut fmt::Formatter<W>) -> fmt::Result {
        match self {
            Keeper::Ready(ready) => {
                let state = ready.state();
                write!(f, "ready in {state}")
            }
            Keeper::Waiting(waiting) => {
                let state = waiting.state();
                let mv = waiting.granted();
                write!(f, "waiting in {state} after move {mv}")
            }
        }
    }
}
