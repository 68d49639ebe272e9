//! Arming a keeper and serving a whole row of calls with it.
ghost use Rattle.std.specs.Prelude.{◌≡◌, length};
ghost use Rattle.game.specs.Game.{mark};
ghost use Rattle.game.specs.Plays.{Safe};
ghost use Rattle.game.specs.Maps.{turned_away};
ghost use Rattle.game.specs.Answers.{told, map_after};
ghost use Rattle.keeper.specs.Service.{calls, answered, after_calls};
ghost use Rattle.keeper.specs.Promise.{OneAnswer};
ghost use Rattle.keeper.specs.Serving.{served, row_after, KeptPromise};

use crate::arming::{Armed, synthesise};
use crate::service::{Exchange, Keeper, perform};
use game::board::Board;
use game::solution::{Refusal, Tally};
use traffic::Traffic;

/// What synthesis tells of all states, and the keeper after all calls.
#[derive(Drop)]
pub struct Served {
    pub tally: Tally,
    pub keeper: Keeper,
}

// Performs the calls in order and notes the answer of each.
fn perform_all<T: Traffic>(board: Board<'_, T>, armed: Keeper, exchanges: &mut [Exchange]) -> Keeper
    ensures keeper { result ≡ after_calls (T.meaning board.entry.traffic.now) board.entry.map.now armed (calls exchanges.old) }
    ensures row { exchanges.new ≡ answered (T.meaning board.entry.traffic.now) board.entry.map.now armed exchanges.old }
{
    let mut keeper = armed;
    for exchange in exchanges.iter_mut() {
        let (next, answer) = perform(keeper, board, exchange.call);
        keeper = next;
        exchange.answer = Some(answer);
    }
    keeper
}

// The answer, the row and the map afterwards. Apart from serve, so that the guarantee is proved over one exit.
fn arm_and_perform<T: Traffic>(
    traffic: &T,
    start: usize,
    map: &mut [u16],
    exchanges: &mut [Exchange],
) -> Result<Served, Refusal>
    ensures answer { result ≡ served (T.meaning traffic.now) start map.old (calls exchanges.old) }
    ensures row { exchanges.new ≡ row_after (T.meaning traffic.now) start map.old exchanges.old }
    ensures after { map.new ≡ map_after (T.meaning traffic.now) start map.old }
{
    let Armed { keeper, tally } = synthesise(traffic, start, map)?;
    let board = Board { traffic, map };
    let keeper = perform_all(board, Keeper::Ready(keeper), exchanges);
    Ok(Served { tally, keeper })
}

/// Arms a keeper at the start, then performs the calls of the row in order and notes the answer of each beside it. A call
/// out of turn is answered so and changes nothing. Where no keeper is armed the row stays as it was.
pub fn serve<T: Traffic>(
    traffic: &T,
    start: usize,
    map: &mut [u16],
    exchanges: &mut [Exchange],
) -> Result<Served, Refusal>
    ensures answer { result ≡ served (T.meaning traffic.now) start map.old (calls exchanges.old) }
    ensures row { exchanges.new ≡ row_after (T.meaning traffic.now) start map.old exchanges.old }
    ensures after { map.new ≡ map_after (T.meaning traffic.now) start map.old }
    ensures guarantee { KeptPromise told (turned_away (T.meaning traffic.now) (length map.old) start) (T.meaning traffic.now) start map.new (calls exchanges.old) exchanges.new result }
    ensures one_answer { OneAnswer (T.meaning traffic.now) (Safe (T.meaning traffic.now)) (mark (T.meaning traffic.now)) }
{
    arm_and_perform(traffic, start, map, exchanges)
}
