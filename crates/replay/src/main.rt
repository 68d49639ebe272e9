//! Replays lists of calls, each on a keeper of its own, and prints what is answered.
//!
//! Three arguments stand for one replay: a site file, the start, and a text file of calls. More such groups may follow.
//!
//! A line of a text file is a call: `permits M`, `pick`, `grant M`, `report S`, `permits M in S` or `spoiler M in S`, with
//! a move M and a state S. A number, the start too, is written in digits alone, with no zero before them. Empty lines, and
//! lines that begin with `#`, are skipped. A line that is no call, a start that is no number and a file that is no site
//! file are told, and end nothing.
#![tactic(auto)]

use anyhow::anyhow;
use calls::{number, read_call};
use keeper::service::{Exchange, Keeper};
use keeper::serving::serve;
use site::site::Site;
use std::{env, fs, io};

/// The calls of a text. A line that is none is told and left out.
fn read_calls(rt: &HostRuntime, text: &str) -> anyhow::Result<Vec<Exchange>> {
    let mut exchanges = Vec::new(rt.alloc());
    for (i, line) in text.lines().enumerate() {
        if line.is_empty() || line.starts_with('#') {
            continue;
        }
        match read_call(line) {
            Some(call) => exchanges.push(Exchange { call, answer: None })?,
            None => println!(rt; "line {} is no call", i + 1)?,
        }
    }
    Ok(exchanges)
}

fn print_served(rt: &HostRuntime, exchanges: &[Exchange], keeper: &Keeper) -> io::Result<()> {
    for Exchange { call, answer } in exchanges {
        if let Some(answer) = answer {
            println!(rt; "{call}: {answer}")?;
        }
    }
    println!(rt; "{keeper}")
}

fn replay_on(
    rt: &HostRuntime,
    site: &Site,
    start: usize,
    map: &mut [u16],
    exchanges: &mut [Exchange],
) -> anyhow::Result<()> {
    match serve(site, start, map, exchanges) {
        Ok(served) => print_served(rt, exchanges, &served.keeper)?,
        Err(refusal) => println!(rt; "{refusal}")?,
    }
    Ok(())
}

/// The site of a file. The fault of a file that has none is told.
fn read_site(rt: &HostRuntime, name: &str) -> anyhow::Result<Option<Site>> {
    let file = fs::read(rt, name)?;
    match Site::read(rt.alloc(), &file) {
        Ok(site) => Ok(Some(site)),
        Err(fault) => {
            let report = fault
                .report()
                .ok_or_else(|| anyhow!("no memory for a site"))?;
            println!(rt; "{report}")?;
            Ok(None)
        }
    }
}

fn replay(rt: &HostRuntime, site: &str, start: &str, calls: &str) -> anyhow::Result<()> {
    println!(rt; "# {site} {start} {calls}")?;
    let Some(start) = number(start) else {
        println!(rt; "a start is a number")?;
        return Ok(());
    };
    let Some(site) = read_site(rt, site)? else {
        return Ok(());
    };
    let text = fs::read_to_string(rt, calls)?;
    let mut exchanges = read_calls(rt, text.as_str())?;
    let mut map = [0u16; 32768];
    replay_on(rt, &site, start, &mut map, &mut exchanges)
}

fn run(rt: &HostRuntime) -> anyhow::Result<()> {
    let arguments: Vec<String> = env::args(rt)?.skip(1).collect(rt.alloc())?;
    for group in arguments.chunks(3) {
        let [site, start, calls] = group else {
            return Err(anyhow!("a replay has three arguments: SITE START CALLS"));
        };
        replay(rt, site.as_str(), start.as_str(), calls.as_str())?;
    }
    Ok(())
}

fn main(rt: HostRuntime) -> anyhow::Result<()> {
    run(&rt)
}
