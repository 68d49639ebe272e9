//! From a site file to what the program prints: the verdict on the site's game, or why the file is refused.
#![tactic(auto)]

ghost use Rattle.std.specs.Prelude.{◌≡◌, length, IfOk, Some};
ghost use Rattle.site_read.specs.Faults.{report_with};
ghost use Rattle.site.specs.Loaded.{site_places};
ghost use Rattle.verdict.specs.Verdicts.{ruled, site_verdict, site_map, Judged, judged_map, lines};
ghost use Rattle.verdict.specs.Tells.{Tells, FaultIsRefused};
ghost use Rattle.verdict.specs.declared.Verdict.TheVariants.{Refused};

use game::solution::{Refusal, Tally};
use keeper::arming::{Armed, synthesise};
use site::site::Site;
use site::site::group::GroupFault;
use site_read::fault::Report;
use std::alloc::{AllocError, Global};
use std::fmt;

/// What is said of a site file. The start is joint state 0.
#[derive(Clone, Copy, PartialEq, Eq, Debug)]
pub enum Verdict {
    /// The site has so many joint states, and the start is safe.
    Schedule {
        states: usize,
        tally: Tally,
    },
    /// Every rule is led into a jam from the start, within `count` checks; within fewer, some rule is not.
    NoSchedule {
        states: usize,
        tally: Tally,
        count: u16,
    },
    Refused(Report),
}

impl fmt::Display for Verdict {
    ghost output = { λ v. Some (lines v) };

    fn fmt<W: fmt::Write>(&self, f: &mut fmt::Formatter<W>) -> fmt::Result {
        match self {
            Verdict::Schedule {
                states,
                tally: Tally { winning, rounds },
            } => write!(
                f,
                "states {states}\nwinning {winning}\nrounds {rounds}\nstart yes"
            ),
            Verdict::NoSchedule {
                states,
                tally: Tally { winning, rounds },
                count,
            } => write!(
                f,
                "states {states}\nwinning {winning}\nrounds {rounds}\nstart no {count}"
            ),
            Verdict::Refused(report) => write!(f, "{report}"),
        }
    }
}

impl Verdict {
    // Refused by this number, and no loop or byte is at fault.
    fn refused_whole(number: u8) -> Verdict
        ensures { result ≡ Refused (report_with number 0 0) }
    {
        Verdict::Refused(Report {
            number,
            place: 0,
            at: 0,
        })
    }

    // What is found on a site of so many joint states.
    fn of_synthesis(states: usize, found: Result<Armed, Refusal>) -> Verdict
        ensures { result ≡ ruled states found }
    {
        match found {
            Ok(armed) => Verdict::Schedule {
                states,
                tally: armed.tally,
            },
            Err(Refusal::NoSchedule { count, tally }) => Verdict::NoSchedule {
                states,
                tally,
                count,
            },
            Err(Refusal::Map(fault)) => Verdict::refused_whole(fault.number()),
        }
    }

    // On a site that is loaded.
    fn of_site(site: &Site, map: &mut [u16]) -> Verdict
        ensures value { result ≡ site_verdict (site_places site.now) map.old }
        ensures after { map.new ≡ site_map (site_places site.now) map.old }
    {
        match site.states() {
            None => Verdict::refused_whole(GroupFault::OverLimits.number()),
            Some(states) => {
                let found = synthesise(site, 0, map);
                Verdict::of_synthesis(states, found)
            }
        }
    }

    // What the code makes of a file.
    fn judge(heap: Global, file: &[u8], map: &mut [u16]) -> Result<Verdict, AllocError>
        ensures value { Judged file.now map.old result }
        ensures after { map.new ≡ judged_map file.now map.old result }
    {
        match Site::read(heap, file) {
            Ok(site) => Ok(Verdict::of_site(&site, map)),
            Err(fault) => {
                let report = fault.report().ok_or(AllocError)?;
                Ok(Verdict::Refused(report))
            }
        }
    }

    /// On a site file, with a map of marks to work on, which should have room for 32,768. An error is want of memory, which
    /// comes only for an accepted file with a region loop.
    pub fn of(heap: Global, file: &[u8], map: &mut [u16]) -> Result<Verdict, AllocError>
        ensures value { Judged file.now map.old result }
        ensures after { map.new ≡ judged_map file.now map.old result }
        ensures tells { IfOk result (Tells file.now (length map.old)) }
        ensures fault { FaultIsRefused file.now result }
    {
        Verdict::judge(heap, file, map)
    }
}
