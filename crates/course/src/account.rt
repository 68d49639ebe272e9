//! What a course of checks came to.
ghost use Rattle.std.specs.Prelude.{◌≡◌, ◌<◌, suc, cond, nat_eq, length};
ghost use Rattle.std.specs.List.{list_any};
ghost use Rattle.course.specs.Account.{sends, longest_silence_in, LongestSilence, jam_told, meets_jam, TellsJam, loops_told, sends_told, all_sends, account_of};
ghost use Rattle.traffic.specs.Answered.{due_of};

use crate::check::Check;
use traffic::{MOST_LOOPS, Traffic};

/// How often each loop sent, loop 1 first. Nothing is told of a loop that the traffic does not have, and over the limits
/// of none.
#[derive(Clone, Copy, PartialEq, Eq, Debug)]
pub struct Sends {
    pub counts: [Option<usize>; MOST_LOOPS],
}

/// What a course came to.
#[derive(Clone, Copy, PartialEq, Eq, Debug)]
pub struct Account {
    pub slots: usize,
    pub sends: Sends,
    /// For how many checks on end no loop sent, at the most.
    pub longest_silence: usize,
    /// Whether the start is a jam, or a state that was come to.
    pub met_jam: bool,
}

// How often the loop of this number sent.
fn sends_of(checks: &[Check], place: usize) -> usize
    ensures { result ≡ sends place checks.now }
{
    checks.iter().filter(|check| check.mv == place).count()
}

// For how many checks no loop has sent, by how many they were before this one.
fn silence_with(silence: usize, check: Check) -> usize
    requires { silence < 18446744073709551615 }
    ensures { result ≡ cond (nat_eq check.mv 0) (suc silence) 0 }
{
    if check.mv == 0 { silence + 1 } else { 0 }
}

fn longest_silence(checks: &[Check]) -> usize
    ensures { result ≡ longest_silence_in checks.now }
{
    let mut silence = 0;
    let mut longest = 0;
    for check in checks {
        silence = silence_with(silence, *check);
        longest = longest.max(silence);
    }
    longest
}

// Whether two or more loops are due in a state. One that the traffic does not have counts as a jam.
fn is_jam<T: Traffic>(traffic: &T, state: usize) -> bool
    ensures { result ≡ jam_told (due_of (T.meaning traffic.now) state) }
{
    traffic.due(state).is_none_or(|due| due >= 2)
}

// Whether a next state of some check is a jam.
fn comes_to_jam<T: Traffic>(traffic: &T, checks: &[Check]) -> bool
    ensures { result ≡ list_any (λ c. jam_told (due_of (T.meaning traffic.now) c.next)) checks.now }
{
    checks.iter().any(|check| is_jam(traffic, check.next))
}

// Whether the start or a next state is a jam.
fn met_jam<T: Traffic>(traffic: &T, start: usize, checks: &[Check]) -> bool
    ensures { result ≡ meets_jam (T.meaning traffic.now) start checks.now }
{
    is_jam(traffic, start) || comes_to_jam(traffic, checks)
}

// The loops of a traffic; over the limits none is told.
fn loops_of<T: Traffic>(traffic: &T) -> usize
    ensures { result ≡ loops_told (T.meaning traffic.now) }
{
    traffic.size().map_or(0, |size| size.loops)
}

// How often the loop of this number sent, if it is one of so many.
fn told_of(checks: &[Check], loops: usize, place: usize) -> Option<usize>
    ensures { result ≡ sends_told loops checks.now place }
{
    (place <= loops).then(|| sends_of(checks, place))
}

impl Sends {
    /// How often each loop sent in these checks.
    pub fn of<T: Traffic>(traffic: &T, checks: &[Check]) -> Sends
        ensures { result ≡ all_sends (T.meaning traffic.now) checks.now }
    {
        let loops = loops_of(traffic);
        let mut counts = [None; MOST_LOOPS];
        for place in 1..=MOST_LOOPS {
            counts[place - 1] = told_of(checks, loops, place);
        }
        Sends { counts }
    }
}

impl Account {
    /// What these checks from a start came to.
    pub fn of<T: Traffic>(traffic: &T, start: usize, checks: &[Check]) -> Account
        ensures value { result ≡ account_of (T.meaning traffic.now) start checks.now }
        ensures longest { LongestSilence result.longest_silence checks.now }
        ensures tells { TellsJam (T.meaning traffic.now) start checks.now result.met_jam }
    {
        Account {
            slots: checks.len(),
            sends: Sends::of(traffic, checks),
            longest_silence: longest_silence(checks),
            met_jam: met_jam(traffic, start, checks),
        }
    }
}
