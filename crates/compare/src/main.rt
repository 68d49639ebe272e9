//! Compares the proved solver, reader and writer with a table of cases that an independent program made.
//!
//! A line of the table is a site file in hex, a colon, a blank and the lines that the verdict is expected to have, with a
//! comma and a blank between them. Where the file is accepted, `; marks ` and the marks of all states follow: `0*3 1` says
//! that the first three have mark 0 and the fourth has mark 1. A line that begins with `#` is a comment.
//! One that begins with `!` is wrong on purpose: a difference is to be found, and is printed.
//!
//! The whole map is compared: the marks, and what is behind them. An accepted file is also written back. Where another file
//! than this is to be written back, `; written ` and that file in hex follow; so only a line that is wrong on purpose ends.
#![tactic(auto)]

use crate::case::Case;
use crate::map::{ROOM, UNMARKED, expected_map};
use anyhow::anyhow;
use cases::buffer::holds;
use cases::difference::first_difference;
use cases::hex::unhex;
use cases::lines::are_told_as;
use cases::runs::read_runs;
use site::site::Site;
use site_write::write::{WriteFault, write_site};
use std::alloc::{AllocError, Global};
use std::io::{BufRead, BufReader};
use verdict::Verdict;

mod case;
mod map;

/// What a byte of a buffer is before a write, and where no write may come.
const UNTOUCHED: u8 = 0xA5;

/// How many things were compared, and how many of them are as expected.
#[derive(Clone, Copy, Default)]
struct Count {
    all: u32,
    agree: u32,
}

impl Count {
    fn add(&mut self, agrees: bool) {
        self.all = self.all.saturating_add(1);
        if agrees {
            self.agree = self.agree.saturating_add(1);
        }
    }

    fn is_whole(self) -> bool {
        self.agree == self.all
    }
}

#[derive(Clone, Copy, Default)]
struct Tally {
    verdicts: Count,
    /// Of the accepted files.
    maps: Count,
    written_back: Count,
    /// The maps of the refused files, which stay as they were.
    left_alone: Count,
    /// The lines that are wrong on purpose: those in which a difference is found.
    wrong: Count,
}

impl Tally {
    /// Whether all cases but those that are wrong on purpose are as expected.
    fn is_well(self) -> bool {
        self.verdicts.is_whole()
            && self.maps.is_whole()
            && self.written_back.is_whole()
            && self.left_alone.is_whole()
    }

    fn print(self, rt: &HostRuntime) -> anyhow::Result<()> {
        let Tally {
            verdicts,
            maps,
            written_back,
            left_alone,
            wrong,
        } = self;
        println!(rt; "{} cases: {} verdicts agree", verdicts.all, verdicts.agree)?;
        println!(rt;
            "{} accepted files: {} maps agree, {} written back",
            maps.all, maps.agree, written_back.agree
        )?;
        println!(rt;
            "{} refused files: {} maps left alone",
            left_alone.all, left_alone.agree
        )?;
        println!(rt;
            "{} lines wrong on purpose: {} differences found",
            wrong.all, wrong.agree
        )?;
        Ok(())
    }
}

/// Whether the site is written as `file`, with the buffer behind it left alone.
fn is_written_as(heap: Global, site: &Site, file: &[u8]) -> Result<bool, AllocError> {
    let mut out = vec![in heap; UNTOUCHED; file.len().saturating_add(2)]?;
    let answer = write_site(site, &mut out);
    Ok(answer == Ok(file.len()) && holds(&out, file, UNTOUCHED))
}

/// Whether a buffer one byte too short is refused, and stays as it was.
fn is_too_short(heap: Global, site: &Site, wanted: usize) -> Result<bool, AllocError> {
    let mut out = vec![in heap; UNTOUCHED; wanted.saturating_sub(1)]?;
    let answer = write_site(site, &mut out);
    Ok(answer == Err(WriteFault::TooShort(wanted)) && holds(&out, &[], UNTOUCHED))
}

/// Whether the verdict is the one expected. It is printed where it is another.
fn verdict_agrees(rt: &HostRuntime, case: Case<'_>, verdict: Verdict) -> anyhow::Result<bool> {
    let said = format!(in rt.alloc(); "{verdict}")?;
    let agrees = are_told_as(said.as_str(), case.verdict);
    if !agrees {
        println!(rt; "{}: expected {}, found\n{said}", case.hex, case.verdict)?;
    }
    Ok(agrees)
}

/// Whether the whole map is as expected. The first difference is printed.
fn map_agrees(rt: &HostRuntime, case: Case<'_>, map: &[u16]) -> anyhow::Result<bool> {
    let runs = read_runs(rt.alloc(), case.marks)?.ok_or_else(|| anyhow!(
        "no runs in the marks of a case"
    ))?;
    let Some(expected) = expected_map(rt.alloc(), &runs)? else {
        println!(rt; "{}: more marks than a map has room for", case.hex)?;
        return Ok(false);
    };
    let difference = first_difference(map, &expected);
    if let Some(difference) = difference {
        println!(rt; "{}: {difference}", case.hex)?;
    }
    Ok(difference.is_none())
}

/// Whether the site is written as expected, and refused where the buffer is too short. What is not so is printed.
fn write_agrees(
    rt: &HostRuntime,
    case: Case<'_>,
    site: &Site,
    expected: &[u8],
) -> anyhow::Result<bool> {
    let written = is_written_as(rt.alloc(), site, expected)?;
    if !written {
        println!(rt; "{}: not written back as {}", case.hex, case.written)?;
    }
    let refused = is_too_short(rt.alloc(), site, expected.len())?;
    if !refused {
        println!(rt; "{}: a byte too few is not refused as expected", case.hex)?;
    }
    Ok(written && refused)
}

/// Whether the file, once loaded, is written back.
fn file_agrees(rt: &HostRuntime, case: Case<'_>, file: &[u8]) -> anyhow::Result<bool> {
    let mut site = Site::new();
    let is_loaded = site.load(rt.alloc(), file).is_ok();
    let expected = unhex(rt.alloc(), case.written.as_bytes())?;
    match expected {
        Some(expected) if is_loaded => write_agrees(rt, case, &site, &expected),
        _ => {
            println!(rt; "{}: not loaded, or no file expected", case.hex)?;
            Ok(false)
        }
    }
}

fn compare_file(
    rt: &HostRuntime,
    tally: &mut Tally,
    case: Case<'_>,
    file: &[u8],
) -> anyhow::Result<()> {
    let mut map = [UNMARKED; ROOM];
    let verdict = Verdict::of(rt.alloc(), file, &mut map)?;
    tally.verdicts.add(verdict_agrees(rt, case, verdict)?);
    let same_map = map_agrees(rt, case, &map)?;
    match verdict {
        Verdict::Refused(_) => tally.left_alone.add(same_map),
        _ => {
            tally.maps.add(same_map);
            tally.written_back.add(file_agrees(rt, case, file)?);
        }
    }
    Ok(())
}

/// A text that is no hex has no file and so no verdict.
fn compare_case(rt: &HostRuntime, tally: &mut Tally, case: Case<'_>) -> anyhow::Result<()> {
    let Some(file) = unhex(rt.alloc(), case.hex.as_bytes())? else {
        println!(rt; "{}: no hex", case.hex)?;
        tally.verdicts.add(false);
        return Ok(());
    };
    compare_file(rt, tally, case, &file)
}

/// A comparison that finds no difference shows something only where it would find one.
fn compare_wrong(rt: &HostRuntime, tally: &mut Tally, case: Case<'_>) -> anyhow::Result<()> {
    let mut alone = Tally::default();
    compare_case(rt, &mut alone, case)?;
    tally.wrong.add(!alone.is_well());
    Ok(())
}

fn compare_line(rt: &HostRuntime, tally: &mut Tally, line: &str) -> anyhow::Result<()> {
    let wrong = line.strip_prefix('!');
    let case = Case::of_line(wrong.unwrap_or(line)).ok_or_else(|| anyhow!(
        "a case has no verdict"
    ))?;
    if wrong.is_some() {
        compare_wrong(rt, tally, case)
    } else {
        compare_case(rt, tally, case)
    }
}

fn run(rt: &HostRuntime) -> anyhow::Result<()> {
    let mut tally = Tally::default();
    for line in BufReader::new(rt.alloc(), rt.stdin())?.lines(rt.alloc()) {
        let line = line?;
        if line.as_str().starts_with('#') {
            continue;
        }
        compare_line(rt, &mut tally, line.as_str())?;
    }
    tally.print(rt)
}

fn main(rt: HostRuntime) -> anyhow::Result<()> {
    run(&rt)
}
