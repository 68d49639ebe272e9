//! Makes a call of a keeper from the line in which it is printed.
//!
//! A call is `permits M`, `pick`, `grant M`, `report S`, `permits M in S` or `spoiler M in S`, with a move M and a state S.
//! One blank stands between two words. A number is written in digits alone, and no other digit follows a leading zero.
#![tactic(auto)]

ghost use Rattle.calls.specs.Reading.{Finds, Numeral, CallLine, Numbered, Placed};

use keeper::service::Call;

/// The number that a word is.
pub fn number(word: &str) -> Option<usize>
    ensures { Finds (Numeral word.now) result }
{
    if word.starts_with('+') || (word.starts_with('0') && word.len() > 1) {
        return None;
    }
    word.parse().ok()
}

// A function of its own: FromStr cannot stand here for a type of another crate.
/// The call that a line is.
pub fn read_call(line: &str) -> Option<Call>
    ensures { Finds (CallLine line.now) result }
{
    if line == "pick" {
        return Some(Call::Pick);
    }
    let (name, numbers) = line.split_once(' ')?;
    match numbers.split_once(' ') {
        Some((mv, place)) => call_in(name, mv, place.strip_prefix("in ")?),
        None => call_with(name, numbers),
    }
}

/// A call that names a move or a state.
fn call_with(name: &str, word: &str) -> Option<Call>
    ensures { Finds (Numbered name.now word.now) result }
{
    let n = number(word)?;
    match name {
        "permits" => Some(Call::Permits(n)),
        "grant" => Some(Call::Grant(n)),
        "report" => Some(Call::Report(n)),
        _ => None,
    }
}

/// A call that names a move in a state.
fn call_in(name: &str, mv: &str, state: &str) -> Option<Call>
    ensures { Finds (Placed name.now mv.now state.now) result }
{
    let mv = number(mv)?;
    let state = number(state)?;
    match name {
        "permits" => Some(Call::PermitsIn { state, mv }),
        "spoiler" => Some(Call::Spoiler { state, mv }),
        _ => None,
    }
}
