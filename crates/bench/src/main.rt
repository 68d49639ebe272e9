//! Solves the site file on standard input as often as its one argument says, so that the time of a solve can be taken.
#![tactic(auto)]

use anyhow::anyhow;
use game::solution::{Refusal, Tally, solve};
use site::site::Site;
use std::env;
use std::io::Read;
use traffic::Traffic;

/// What synthesis tells of all states, with a schedule or without.
fn told(answer: Result<Tally, Refusal>) -> Option<Tally> {
    match answer {
        Ok(tally) | Err(Refusal::NoSchedule { tally, .. }) => Some(tally),
        Err(Refusal::Map(_)) => None,
    }
}

/// How often to solve: the program's argument.
// As station reads its own: no crate is shared by programs alone.
fn repetitions(rt: &HostRuntime) -> anyhow::Result<u32> {
    let mut arguments = env::args(rt)?.skip(1);
    let argument = arguments
        .next()
        .ok_or_else(|| anyhow!("say how often to solve"))?;
    argument
        .as_str()
        .parse()
        .map_err(|_| anyhow!("how often to solve is a number"))
}

fn solve_often(site: &Site, times: u32, map: &mut [u16]) -> Option<Tally> {
    let mut last = None;
    for _ in 0..times {
        last = told(solve(site, 0, map));
    }
    last
}

fn run(rt: &HostRuntime) -> anyhow::Result<()> {
    let times = repetitions(rt)?;
    let mut file = Vec::new(rt.alloc());
    rt.stdin().read_to_end(&mut file)?;
    let site = Site::read(rt.alloc(), &file).map_err(|_| anyhow!("the file is no site file"))?;
    let mut map = [0u16; 32768];
    let solved = solve_often(&site, times, &mut map).zip(site.states());
    let (tally, states) = solved.ok_or_else(|| anyhow!("nothing was solved"))?;
    let Tally { winning, rounds } = tally;
    println!(rt; "states {states} winning {winning} rounds {rounds}")?;
    Ok(())
}

fn main(rt: HostRuntime) -> anyhow::Result<()> {
    run(&rt)
}
