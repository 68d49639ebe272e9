//! Reads a site file from standard input and prints its verdict.
#![tactic(auto)]

ghost use Rattle.std.specs.Prelude.{IfOk, replicate};
ghost use Rattle.verdict.specs.Tells.{Tells};
ghost use Rattle.verdict.specs.Verdicts.{Judged};

use std::alloc::{AllocError, Global};
use std::io::Read;
use verdict::Verdict;

/// The verdict on a site file, on a map of the program's own. It has room for the most states that a site may have.
fn judge(heap: Global, file: &[u8]) -> Result<Verdict, AllocError>
    ensures value { Judged file.now (replicate 32768 0) result }
    ensures tells { IfOk result (Tells file.now 32768) }
{
    let mut map = [0u16; 32768];
    Verdict::of(heap, file, &mut map)
}

fn run(rt: &HostRuntime) -> anyhow::Result<()> {
    let mut file = Vec::new(rt.alloc());
    rt.stdin().read_to_end(&mut file)?;
    let verdict = judge(rt.alloc(), &file)?;
    println!(rt; "{verdict}")?;
    Ok(())
}

fn main(rt: HostRuntime) -> anyhow::Result<()> {
    run(&rt)
}
