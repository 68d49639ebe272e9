//! Keepers in words. None can be made up, so each is armed on a site.
use anyhow::anyhow;
use calls::number;
use game::board::Board;
use keeper::arming::synthesise;
use keeper::service::{Call, Keeper, perform};
use site::site::Site;
use std::fs;

/// Arms a keeper and grants it a move: prints it as it is ready, and as it waits.
fn print_armed(rt: &HostRuntime, site: &Site, start: usize, mv: usize) -> anyhow::Result<()> {
    let mut map = [0u16; 32768];
    let armed = synthesise(site, start, &mut map).map_err(|_| anyhow!("no keeper is armed"))?;
    let ready = Keeper::Ready(armed.keeper);
    println!(rt; "{ready}")?;
    let board = Board {
        traffic: site,
        map: &map,
    };
    let (waiting, _) = perform(ready, board, Call::Grant(mv));
    println!(rt; "{waiting}")?;
    Ok(())
}

/// The keeper of a site file, armed at a start and granted a move.
pub fn print_keeper(rt: &HostRuntime, site: &str, start: &str, mv: &str) -> anyhow::Result<()> {
    println!(rt; "# {site} {start} {mv}")?;
    let file = fs::read(rt, site)?;
    let site = Site::read(rt.alloc(), &file).map_err(|_| anyhow!("the file is no site file"))?;
    let start = number(start).ok_or_else(|| anyhow!("a start is a number"))?;
    let mv = number(mv).ok_or_else(|| anyhow!("a move is a number"))?;
    print_armed(rt, &site, start, mv)
}
