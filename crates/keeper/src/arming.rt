//! Synthesis, which arms a keeper where the start is safe.
ghost use Rattle.std.specs.Prelude.{◌≡◌, length};
ghost use Rattle.game.specs.Maps.{turned_away};
ghost use Rattle.game.specs.Answers.{told, solved, map_after};
ghost use Rattle.keeper.specs.Arming.{armed};
ghost use Rattle.keeper.specs.Guarantee.{Promised};

use crate::slot::Ready;
use game::solution::{Refusal, Tally, solve};
use traffic::Traffic;

/// What a synthesis with a schedule brings.
#[derive(Drop)]
pub struct Armed {
    pub keeper: Ready,
    pub tally: Tally,
}

// The answer, and the map afterwards. Apart from synthesise, so that the guarantee is proved over one exit.
fn solve_and_arm<T: Traffic>(traffic: &T, start: usize, map: &mut [u16]) -> Result<Armed, Refusal>
    ensures answer { result ≡ armed start (solved (T.meaning traffic.now) start map.old) }
    ensures after { map.new ≡ map_after (T.meaning traffic.now) start map.old }
{
    let tally = solve(traffic, start, map)?;
    Ok(Armed {
        keeper: Ready { state: start },
        tally,
    })
}

/// Fills the map, and arms a keeper at the start if it is safe there. Where there is no schedule there is no keeper.
pub fn synthesise<T: Traffic>(traffic: &T, start: usize, map: &mut [u16]) -> Result<Armed, Refusal>
    ensures answer { result ≡ armed start (solved (T.meaning traffic.now) start map.old) }
    ensures after { map.new ≡ map_after (T.meaning traffic.now) start map.old }
    ensures guarantee { Promised told (turned_away (T.meaning traffic.now) (length map.old) start) (T.meaning traffic.now) start result map.new }
{
    solve_and_arm(traffic, start, map)
}
