//! Solves the game of each of the named site files once, and prints how often the solver asked each question. Before, each
//! question is asked another number of times, and their counts are printed.
//!
//! A solver that keeps less of what it found fills the same map, but it asks more.
#![tactic(auto)]

use anyhow::anyhow;
use counted::Counted;
use game::solution::{Refusal, solve};
use site::site::Site;
use std::{env, fs, io};
use traffic::Traffic;
use traffic::empty::Empty;

mod counted;

fn run_named(rt: &HostRuntime, name: &str) -> anyhow::Result<()> {
    let file = fs::read(rt, name)?;
    let site = Site::read(rt.alloc(), &file).map_err(|_| anyhow!("the file is no site file"))?;
    let counted = Counted::new(&site);
    let mut map = [0u16; 32768];
    if let Err(Refusal::Map(_)) = solve(&counted, 0, &mut map) {
        return Err(anyhow!("the site is over the limits"));
    }
    println!(rt; "{name}: {counted}")?;
    Ok(())
}

/// Asks each question another number of times, so that a count that stays behind shows: a solve asks two of them never.
fn run_each(rt: &HostRuntime) -> io::Result<()> {
    let counted = Counted::new(&Empty {});
    let _ = counted.size();
    for state in 0..2 {
        let _ = counted.due(state);
    }
    for mv in 0..3 {
        let _ = counted.is_legal(0, mv);
    }
    for from in 0..4 {
        let _ = counted.next_from(0, 0, from);
    }
    println!(rt; "each: {counted}")
}

fn run(rt: &HostRuntime) -> anyhow::Result<()> {
    run_each(rt)?;
    for name in env::args(rt)?.skip(1) {
        run_named(rt, name.as_str())?;
    }
    Ok(())
}

fn main(rt: HostRuntime) -> anyhow::Result<()> {
    run(&rt)
}
