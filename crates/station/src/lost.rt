//! A site without a schedule: a play into a jam.
use crate::check::{Group, print_checks};
use anyhow::anyhow;
use course::check::UNUSED;
use course::lost::lost_play;
use game::board::Board;
use site::site::Site;

/// Prints the play from joint state 0 into a jam, in which the lowest legal move is made and the spoiler replies. It has
/// at most `count` checks.
pub fn print_play(rt: &HostRuntime, board: Board<'_, Site>, count: u16) -> anyhow::Result<()> {
    println!(rt; "no schedule: a jam within {count} checks")?;
    let mut checks = vec![in rt.alloc(); UNUSED; usize::from(count)]?;
    let made = lost_play(board, 0, &mut checks).map_err(|_| anyhow!("the map is turned away"))?;
    let play = checks
        .get(..made)
        .ok_or_else(|| anyhow!("the play is longer than its record"))?;
    print_checks(rt, board.traffic, play)?;
    let group = Group::of(board.traffic, play.last().map_or(0, |check| check.next))?;
    println!(rt; "jam: {group}")?;
    Ok(())
}
