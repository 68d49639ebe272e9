//! The rule by which the plants reply.
ghost use Rattle.std.specs.Prelude.{◌≡◌, length, None};
ghost use Rattle.game.specs.Standing.{on};
ghost use Rattle.game.specs.Maps.{turned_away};
ghost use Rattle.course.specs.Plants.{reply_by};

use game::board::Board;
use traffic::Traffic;

/// The plants' reply to a move: the spoiler's where it has one, and else the lowest next state.
pub(crate) fn reply<T: Traffic>(board: Board<'_, T>, state: usize, mv: usize) -> Option<usize>
    requires admitted { turned_away (T.meaning board.traffic.now) (length board.map.now) state ≡ None }
    ensures { result ≡ reply_by (T.meaning board.entry.traffic.now) (on board.entry.map.now) state mv }
{
    let Ok(spoiled) = board.spoiler(state, mv) else {
        unreachable!()
    };
    let lowest = board.traffic.next_from(state, mv, 0);
    spoiled.or(lowest)
}
