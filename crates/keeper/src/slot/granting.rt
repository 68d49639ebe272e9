//! What a ready keeper is asked: questions about the state that it holds, and a grant.
ghost use Rattle.std.specs.Prelude.{◌≡◌};
ghost use Rattle.game.specs.Game.{permitted_by};
ghost use Rattle.game.specs.Choice.{pick_by};
ghost use Rattle.game.specs.Standing.{on};
ghost use Rattle.game.specs.Maps.{unless_turned_away};
ghost use Rattle.keeper.specs.Slots.{granted};

use crate::slot::{Ready, Waiting};
use crate::slot_fault::SlotFault;
use game::board::Board;
use game::map_fault::MapFault;
use traffic::Traffic;

impl Ready {
    /// The state that it holds.
    pub fn state(&self) -> usize
        ensures { result ≡ self.now.state }
    {
        self.state
    }

    /// Whether a move is permitted in the state that it holds.
    pub fn permits<T: Traffic>(&self, board: Board<'_, T>, mv: usize) -> Result<bool, MapFault>
        ensures { result ≡ unless_turned_away (T.meaning board.entry.traffic.now) board.entry.map.now self.now.state (permitted_by (T.meaning board.entry.traffic.now) (on board.entry.map.now) self.now.state mv) }
    {
        board.permits(self.state, mv)
    }

    /// The lowest permitted move, absent where none is.
    pub fn pick<T: Traffic>(&self, board: Board<'_, T>) -> Result<Option<usize>, MapFault>
        ensures { result ≡ unless_turned_away (T.meaning board.entry.traffic.now) board.entry.map.now self.now.state (pick_by (T.meaning board.entry.traffic.now) (on board.entry.map.now) self.now.state) }
    {
        board.pick(self.state)
    }

    /// Grants a move, or hands the keeper back.
    pub fn grant<T: Traffic>(
        self,
        board: Board<'_, T>,
        mv: usize,
    ) -> Result<Waiting, (SlotFault, Ready)>
        ensures { result ≡ granted (T.meaning board.entry.traffic.now) board.entry.map.now self mv }
    {
        match self.permits(board, mv) {
            Ok(true) => {
                let Ready { state } = self;
                Ok(Waiting { state, mv })
            }
            Ok(false) => Err((SlotFault::NotPermitted, self)),
            Err(fault) => Err((fault.into(), self)),
        }
    }
}
