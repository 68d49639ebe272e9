//! Prints each case that has words or a number, with small numbers in it and with the largest.
//!
//! What the words are is promised where they stand. That printing goes on to their end, no contract says: a run shows it.
//!
//! Three arguments stand for a keeper: a site file, the start, and a move that is granted. More such groups may follow.
#![tactic(auto)]

use anyhow::anyhow;
use loops::load_fault::LoadFault;
use numbers::{NUMBERS, Numbers};
use site_read::fault::Fault;
use site_write::write::WriteReport;
use std::{env, fmt, io};
use values::{GROUP_FAULTS, MAP_FAULTS, SLOT_FAULTS};

mod keepers;
mod numbers;
mod values;

fn print_all<T: fmt::Display>(rt: &HostRuntime, values: &[T]) -> io::Result<()> {
    for value in values {
        println!(rt; "{value}")?;
    }
    Ok(())
}

fn print_fault_numbers(rt: &HostRuntime) -> io::Result<()> {
    println!(rt; "# numbers of faults")?;
    print_all(rt, &MAP_FAULTS.map(|fault| fault.number()))?;
    print_all(rt, &SLOT_FAULTS.map(|fault| fault.number()))?;
    print_all(rt, &GROUP_FAULTS.map(|fault| fault.number()))
}

fn print_load_fault(rt: &HostRuntime, fault: LoadFault) -> io::Result<()> {
    match fault.report() {
        Some(report) => println!(rt; "{report}"),
        None => println!(rt; "no report"),
    }
}

fn print_faults(rt: &HostRuntime, faults: [Fault; 8]) -> io::Result<()> {
    for fault in faults {
        print_load_fault(rt, LoadFault::File(fault))?;
    }
    Ok(())
}

fn print_write_report(rt: &HostRuntime, report: WriteReport) -> io::Result<()> {
    let WriteReport { number, value } = report;
    println!(rt; "not written {number}, {value}")
}

fn print_with(rt: &HostRuntime, numbers: Numbers) -> io::Result<()> {
    println!(rt;
        "# with {}, {}, {}",
        numbers.byte, numbers.mark, numbers.count
    )?;
    print_all(rt, &[values::report(numbers)])?;
    print_faults(rt, values::faults(numbers))?;
    for fault in values::write_faults(numbers) {
        print_write_report(rt, fault.into())?;
    }
    for refusal in values::refusals(numbers) {
        println!(rt; "{}, number {}", refusal, refusal.number())?;
    }
    print_all(rt, &values::verdicts(numbers))?;
    print_all(rt, &values::calls(numbers))?;
    print_all(rt, &values::answers(numbers))?;
    print_all(rt, &values::accounts(numbers))?;
    print_all(rt, &[values::difference(numbers)])
}

fn run(rt: &HostRuntime) -> anyhow::Result<()> {
    print_fault_numbers(rt)?;
    print_load_fault(rt, LoadFault::Memory)?;
    for numbers in NUMBERS {
        print_with(rt, numbers)?;
    }
    let arguments: Vec<String> = env::args(rt)?.skip(1).collect(rt.alloc())?;
    for group in arguments.chunks(3) {
        let [site, start, mv] = group else {
            return Err(anyhow!("a keeper has three arguments: SITE START MOVE"));
        };
        keepers::print_keeper(rt, site.as_str(), start.as_str(), mv.as_str())?;
    }
    Ok(())
}

fn main(rt: HostRuntime) -> anyhow::Result<()> {
    run(&rt)
}
