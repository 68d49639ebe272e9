//! A whole list of calls on one keeper.
ghost use Rattle.std.specs.Prelude.{◌≡◌, MatchResult};
ghost use Rattle.keeper.specs.Service.{stepped};
ghost use Rattle.keeper.specs.declared.slot_fault.SlotFault.TheVariants.{Map};
ghost use Rattle.keeper.specs.declared.service.Answer.TheVariants.{Refused};
ghost use Rattle.keeper.specs.declared.service.Keeper.TheVariants.{Ready as AtReady, Waiting as AtWaiting};

use crate::slot::{Ready, Waiting};
use crate::slot_fault::SlotFault;
use game::board::Board;
use game::map_fault::MapFault;
use traffic::Traffic;

/// A keeper in either phase.
#[derive(Drop)]
pub enum Keeper {
    Ready(Ready),
    Waiting(Waiting),
}

#[derive(Clone, Copy, PartialEq, Eq, Debug)]
pub enum Call {
    /// Is the move permitted in the state held?
    Permits(usize),
    Pick,
    Grant(usize),
    Report(usize),
    /// Is the move permitted in this state, whatever state is held?
    PermitsIn { state: usize, mv: usize },
    Spoiler { state: usize, mv: usize },
}

#[derive(Clone, Copy, PartialEq, Eq, Debug)]
pub enum Answer {
    Permitted(bool),
    Picked(Option<usize>),
    Granted,
    /// The report is taken.
    Taken,
    Spoiled(Option<usize>),
    Refused(SlotFault),
    /// The call is not one for a keeper in this phase.
    OutOfTurn,
}

/// A call, and the place for its answer.
#[derive(Clone, Copy, PartialEq, Eq, Debug)]
pub struct Exchange {
    pub call: Call,
    pub answer: Option<Answer>,
}

// What is said: the answer, or that the call was turned away.
fn said(answer: Result<Answer, MapFault>) -> Answer
    ensures { MatchResult answer (λ a. result ≡ a) (λ f. result ≡ Refused (Map f)) }
{
    answer.unwrap_or_else(|fault| Answer::Refused(fault.into()))
}

// One call on a ready keeper.
// The two questions about any state stand in both phases: one function for them would hand back an Option of an answer, and
// each phase would have to name them all the same.
fn ask_ready<T: Traffic>(keeper: Ready, board: Board<'_, T>, call: Call) -> (Keeper, Answer)
    ensures { result ≡ stepped (T.meaning board.entry.traffic.now) board.entry.map.now (AtReady keeper) call }
{
    match call {
        Call::Permits(mv) => {
            let answer = said(keeper.permits(board, mv).map(Answer::Permitted));
            (Keeper::Ready(keeper), answer)
        }
        Call::Pick => {
            let answer = said(keeper.pick(board).map(Answer::Picked));
            (Keeper::Ready(keeper), answer)
        }
        Call::Grant(mv) => match keeper.grant(board, mv) {
            Ok(waiting) => (Keeper::Waiting(waiting), Answer::Granted),
            Err((fault, keeper)) => (Keeper::Ready(keeper), Answer::Refused(fault)),
        },
        Call::Report(_) => (Keeper::Ready(keeper), Answer::OutOfTurn),
        Call::PermitsIn { state, mv } => {
            let answer = said(board.permits(state, mv).map(Answer::Permitted));
            (Keeper::Ready(keeper), answer)
        }
        Call::Spoiler { state, mv } => {
            let answer = said(board.spoiler(state, mv).map(Answer::Spoiled));
            (Keeper::Ready(keeper), answer)
        }
    }
}

// One call on a waiting keeper, with the two questions as above.
fn ask_waiting<T: Traffic>(keeper: Waiting, board: Board<'_, T>, call: Call) -> (Keeper, Answer)
    ensures { result ≡ stepped (T.meaning board.entry.traffic.now) board.entry.map.now (AtWaiting keeper) call }
{
    match call {
        Call::Report(to) => match keeper.report(board, to) {
            Ok(ready) => (Keeper::Ready(ready), Answer::Taken),
            Err((fault, keeper)) => (Keeper::Waiting(keeper), Answer::Refused(fault)),
        },
        Call::PermitsIn { state, mv } => {
            let answer = said(board.permits(state, mv).map(Answer::Permitted));
            (Keeper::Waiting(keeper), answer)
        }
        Call::Spoiler { state, mv } => {
            let answer = said(board.spoiler(state, mv).map(Answer::Spoiled));
            (Keeper::Waiting(keeper), answer)
        }
        Call::Permits(_) | Call::Pick | Call::Grant(_) => {
            (Keeper::Waiting(keeper), Answer::OutOfTurn)
        }
    }
}

/// Performs one call.
pub fn perform<T: Traffic>(keeper: Keeper, board: Board<'_, T>, call: Call) -> (Keeper, Answer)
    ensures { result ≡ stepped (T.meaning board.entry.traffic.now) board.entry.map.now keeper call }
{
    match keeper {
        Keeper::Ready(ready) => ask_ready(ready, board, call),
        Keeper::Waiting(waiting) => ask_waiting(waiting, board, call),
    }
}
