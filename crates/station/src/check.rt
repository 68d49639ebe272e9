//! How checks are printed.
use anyhow::anyhow;
use course::check::Check;
use site::site::Site;
use std::fmt;

/// The states of the four loops.
#[derive(Clone, Copy)]
pub struct Group {
    states: [usize; 4],
}

impl Group {
    pub fn of(site: &Site, state: usize) -> anyhow::Result<Group> {
        let mut states = [0; 4];
        site.unpack(state, &mut states)
            .map_err(|_| anyhow!("the site has no such state"))?;
        Ok(Group { states })
    }
}

impl fmt::Display for Group {
    fn fmt<W: fmt::Write>(&self, f: &mut fmt::Formatter<W>) -> fmt::Result {
        let [first, second, third, fourth] = self.states;
        write!(f, "{first} {second} {third} {fourth}")
    }
}

#[derive(Clone, Copy)]
pub enum Move {
    Silence,
    /// The loop of this number sends.
    Send(usize),
}

impl From<usize> for Move {
    fn from(mv: usize) -> Move {
        match mv {
            0 => Move::Silence,
            place => Move::Send(place),
        }
    }
}

impl fmt::Display for Move {
    fn fmt<W: fmt::Write>(&self, f: &mut fmt::Formatter<W>) -> fmt::Result {
        match self {
            Move::Silence => write!(f, "silence"),
            Move::Send(place) => write!(f, "loop {place} sends"),
        }
    }
}

/// Prints the checks, numbered from 1.
// No Display: it needs the site, and a state that the site has not ends the program.
pub fn print_checks(rt: &HostRuntime, site: &Site, checks: &[Check]) -> anyhow::Result<()> {
    for (number, check) in (1..=checks.len()).zip(checks) {
        let before = Group::of(site, check.state)?;
        let mv = Move::from(check.mv);
        let after = Group::of(site, check.next)?;
        println!(rt; "check {number}: {before}, {mv}, then {after}")?;
    }
    Ok(())
}
