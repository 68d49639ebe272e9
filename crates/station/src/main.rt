//! Runs slots on sites and prints what was done.
//!
//! `station SLOTS` takes the site file from standard input; `station SLOTS FILE...` takes each of the files in turn.
#![tactic(auto)]

use anyhow::anyhow;
use course::slots::{RecordFault, record_slots};
use game::board::Board;
use game::solution::Refusal;
use loops::load_fault::LoadFault;
use site::site::Site;
use site_read::fault::Report;
use std::alloc::AllocError;
use std::io::Read;
use std::{env, fs};

mod check;
mod lost;
mod slots;

fn print_refused(rt: &HostRuntime, report: Report) -> anyhow::Result<()> {
    println!(rt; "{report}")?;
    Ok(())
}

/// Runs slots on a site from joint state 0 or, without a schedule, prints how the plants force a jam.
fn run_site(rt: &HostRuntime, site: &Site, slots: u32) -> anyhow::Result<()> {
    let mut map = [0u16; 32768];
    match record_slots(rt.alloc(), site, 0, &mut map, slots as usize) {
        Ok(recorded) => slots::print_course(rt, site, &recorded.checks),
        Err(RecordFault::Memory) => Err(AllocError.into()),
        Err(RecordFault::Refused(Refusal::NoSchedule { count, .. })) => {
            let board = Board {
                traffic: site,
                map: &map,
            };
            lost::print_play(rt, board, count)
        }
        Err(RecordFault::Refused(Refusal::Map(fault))) => print_refused(
            rt,
            Report {
                number: fault.number(),
                place: 0,
                at: 0,
            },
        ),
    }
}

fn run_file(rt: &HostRuntime, file: &[u8], slots: u32) -> anyhow::Result<()> {
    match Site::read(rt.alloc(), file) {
        Ok(site) => run_site(rt, &site, slots),
        Err(LoadFault::File(fault)) => print_refused(rt, fault.into()),
        Err(LoadFault::Memory) => Err(anyhow!("there is no memory")),
    }
}

fn run_named(rt: &HostRuntime, name: &str, slots: u32) -> anyhow::Result<()> {
    println!(rt; "# {name}")?;
    let file = fs::read(rt, name)?;
    run_file(rt, &file, slots)
}

fn run_input(rt: &HostRuntime, slots: u32) -> anyhow::Result<()> {
    let mut file = Vec::new(rt.alloc());
    rt.stdin().read_to_end(&mut file)?;
    run_file(rt, &file, slots)
}

/// How many slots to run: the first argument.
// As bench reads its own: no crate is shared by programs alone.
fn read_slots(argument: Option<String>) -> anyhow::Result<u32> {
    argument
        .ok_or_else(|| anyhow!("say how many slots to run"))?
        .as_str()
        .parse()
        .map_err(|_| anyhow!("how many slots to run is a number"))
}

fn run(rt: &HostRuntime) -> anyhow::Result<()> {
    let mut arguments = env::args(rt)?.skip(1);
    let slots = read_slots(arguments.next())?;
    let Some(first) = arguments.next() else {
        return run_input(rt, slots);
    };
    run_named(rt, first.as_str(), slots)?;
    for name in arguments {
        run_named(rt, name.as_str(), slots)?;
    }
    Ok(())
}

fn main(rt: HostRuntime) -> anyhow::Result<()> {
    run(&rt)
}
