//! The play into a jam, where there is no schedule: the lowest legal move is made, and the plants reply.
ghost use Rattle.std.specs.Prelude.{◌≡◌, true, suc, length, None};
ghost use Rattle.traffic.specs.Refusals.{unless};
ghost use Rattle.traffic.specs.Searches.{least};
ghost use Rattle.traffic.specs.Meaning.{legal};
ghost use Rattle.traffic.specs.Answered.{within_limits};
ghost use Rattle.game.specs.Standing.{on};
ghost use Rattle.game.specs.Maps.{turned_away, unless_turned_away, Filled};
ghost use Rattle.course.specs.Lost.{lost_check, lost_play, play_written, PlaysIntoJam};

use crate::check::Check;
use crate::plants::reply;
use game::board::Board;
use game::map_fault::MapFault;
use traffic::Traffic;

// The lowest legal move of a state.
fn lowest_legal<T: Traffic>(traffic: &T, loops: usize, state: usize) -> Option<usize>
    requires limits { within_limits (T.meaning traffic.now) ≡ true }
    requires loops { loops ≡ (T.meaning traffic.now).loops }
    ensures { result ≡ least (legal (T.meaning traffic.now) state) 0 (suc (T.meaning traffic.now).loops) }
{
    for mv in 0..=loops {
        if traffic.is_legal(state, mv) {
            return Some(mv);
        }
    }
    None
}

// The check of the lost play in a state, absent where no move is legal.
fn check_in<T: Traffic>(board: Board<'_, T>, loops: usize, state: usize) -> Option<Check>
    requires admitted { turned_away (T.meaning board.traffic.now) (length board.map.now) state ≡ None }
    requires loops { loops ≡ (T.meaning board.traffic.now).loops }
    ensures { result ≡ lost_check (T.meaning board.entry.traffic.now) (on board.entry.map.now) state }
{
    let mv = lowest_legal(board.traffic, loops, state)?;
    let Some(next) = reply(board, state, mv) else {
        unreachable!()
    };
    Some(Check { state, mv, next })
}

// Notes the play, and answers how many checks it has.
fn note_play<T: Traffic>(
    board: Board<'_, T>,
    loops: usize,
    start: usize,
    checks: &mut [Check],
) -> usize
    requires admitted { turned_away (T.meaning board.traffic.now) (length board.map.now) start ≡ None }
    requires loops { loops ≡ (T.meaning board.traffic.now).loops }
    ensures answer { result ≡ length (lost_play (T.meaning board.entry.traffic.now) (on board.entry.map.now) (length checks.old) start) }
    ensures noted { checks.new ≡ play_written (lost_play (T.meaning board.entry.traffic.now) (on board.entry.map.now) (length checks.old) start) checks.old }
{
    let mut state = start;
    for made in 0..checks.len() {
        let Some(check) = check_in(board, loops, state) else {
            return made;
        };
        checks[made] = check;
        state = check.next;
    }
    checks.len()
}

// The answer and the record afterwards. Apart from lost_play, so that the theorem is proved over one exit.
fn admit_and_note<T: Traffic>(
    board: Board<'_, T>,
    start: usize,
    checks: &mut [Check],
) -> Result<usize, MapFault>
    ensures answer { result ≡ unless_turned_away (T.meaning board.entry.traffic.now) board.entry.map.now start (length (lost_play (T.meaning board.entry.traffic.now) (on board.entry.map.now) (length checks.old) start)) }
    ensures noted { checks.new ≡ unless (λ f. checks.old) (turned_away (T.meaning board.entry.traffic.now) (length board.entry.map.now) start) (play_written (lost_play (T.meaning board.entry.traffic.now) (on board.entry.map.now) (length checks.old) start) checks.old) }
{
    let size = board.admit(start)?;
    Ok(note_play(board, size.loops, start, checks))
}

/// Plays from the start until no move is legal or the record is full, and answers how many checks it noted. The lowest
/// legal move is made, and the plants reply by their rule. On a map that synthesis filled, and where there is no schedule
/// from the start, this play ends in a jam within the count.
pub fn lost_play<T: Traffic>(
    board: Board<'_, T>,
    start: usize,
    checks: &mut [Check],
) -> Result<usize, MapFault>
    ensures answer { result ≡ unless_turned_away (T.meaning board.entry.traffic.now) board.entry.map.now start (length (lost_play (T.meaning board.entry.traffic.now) (on board.entry.map.now) (length checks.old) start)) }
    ensures noted { checks.new ≡ unless (λ f. checks.old) (turned_away (T.meaning board.entry.traffic.now) (length board.entry.map.now) start) (play_written (lost_play (T.meaning board.entry.traffic.now) (on board.entry.map.now) (length checks.old) start) checks.old) }
    ensures jam { Filled (T.meaning board.entry.traffic.now) board.entry.map.now → PlaysIntoJam (T.meaning board.entry.traffic.now) start (length checks.old) checks.new result }
{
    admit_and_note(board, start, checks)
}
