//! What a waiting keeper is asked: the report of the next state.
ghost use Rattle.std.specs.Prelude.{◌≡◌, Ok, Err};
ghost use Rattle.traffic.specs.Refusals.{unless};
ghost use Rattle.keeper.specs.Slots.{unreportable, reported};

use crate::slot::{Ready, Waiting};
use crate::slot_fault::SlotFault;
use game::board::Board;
use game::map_fault::MapFault;
use traffic::Traffic;

impl Waiting {
    /// The state in which its move was granted.
    pub fn state(&self) -> usize
        ensures { result ≡ self.now.state }
    {
        self.state
    }

    /// The move that was granted.
    pub fn granted(&self) -> usize
        ensures { result ≡ self.now.mv }
    {
        self.mv
    }

    // Whether a state is a next state of the granted move.
    fn takes<T: Traffic>(&self, board: Board<'_, T>, to: usize) -> Result<bool, MapFault>
        ensures { result ≡ unless Err (unreportable (T.meaning board.entry.traffic.now) board.entry.map.now self.now.state to) (Ok ((T.meaning board.entry.traffic.now).leads self.now.state self.now.mv to)) }
    {
        board.admit(self.state)?;
        board.admit(to)?;
        Ok(board.traffic.next_from(self.state, self.mv, to) == Some(to))
    }

    /// Takes the report of the next state, or hands the keeper back.
    pub fn report<T: Traffic>(
        self,
        board: Board<'_, T>,
        to: usize,
    ) -> Result<Ready, (SlotFault, Waiting)>
        ensures { result ≡ reported (T.meaning board.entry.traffic.now) board.entry.map.now self to }
    {
        match self.takes(board, to) {
            Ok(true) => Ok(Ready { state: to }),
            Ok(false) => Err((SlotFault::NoNextState, self)),
            Err(fault) => Err((fault.into(), self)),
        }
    }
}
