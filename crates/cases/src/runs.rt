//! Marks in runs.
ghost use Rattle.std.specs.Prelude.{◌≡◌, IfOk, MatchOption, Some, None, option_map};
ghost use Rattle.cases.specs.Runs.{marks_of, within, map_in};
ghost use Rattle.cases.specs.Words.{number_of, run_of, runs_of, ReadsBack};

use std::alloc::{AllocError, Global};

/// Neighbouring states that have the same mark.
#[derive(Clone, Copy)]
pub struct Run {
    pub mark: u16,
    pub count: u16,
}

// Spelled out, or none where they are more than there is room for.
fn spelled(heap: Global, runs: &[Run], room: usize) -> Result<Option<Vec<u16>>, AllocError>
    ensures { IfOk result (λ found. MatchOption found (within room (marks_of runs.now) ≡ None) (λ marks. within room (marks_of runs.now) ≡ Some marks.items)) }
{
    let mut marks = Vec::new(heap);
    for run in runs {
        let count = usize::from(run.count);
        if count > room - marks.len() {
            return Ok(None);
        }
        marks.resize(marks.len() + count, run.mark)?;
    }
    Ok(Some(marks))
}

/// The map that these runs stand for, with `unmarked` in the places behind them; none where they are more than there is
/// room for.
pub fn map_of(
    heap: Global,
    runs: &[Run],
    room: usize,
    unmarked: u16,
) -> Result<Option<Vec<u16>>, AllocError>
    ensures { IfOk result (λ found. MatchOption found (map_in room unmarked (marks_of runs.now) ≡ None) (λ map. map_in room unmarked (marks_of runs.now) ≡ Some map.items)) }
{
    let Some(mut map) = spelled(heap, runs, room)? else {
        return Ok(None);
    };
    map.resize(room, unmarked)?;
    Ok(Some(map))
}

fn number(word: &str) -> Option<u16>
    ensures { result ≡ number_of word.now }
{
    word.parse().ok()
}

// `MARK*COUNT`, or `MARK` for a single state.
fn read_run(word: &str) -> Option<Run>
    ensures { result ≡ run_of word.now }
{
    match word.split_once('*') {
        Some((mark, count)) => Some(Run {
            mark: number(mark)?,
            count: number(count)?,
        }),
        None => Some(Run {
            mark: number(word)?,
            count: 1,
        }),
    }
}

/// The runs of a text, `MARK*COUNT` or `MARK` for a single state, with a blank between them; none where it is no runs.
pub fn read_runs(heap: Global, text: &str) -> Result<Option<Vec<Run>>, AllocError>
    ensures read { IfOk result (λ found. option_map (λ runs. runs.items) found ≡ runs_of text.now) }
    ensures printed { IfOk result (λ found. ReadsBack text.now (option_map (λ runs. runs.items) found)) }
{
    let mut runs = Vec::new(heap);
    if text.is_empty() {
        return Ok(Some(runs));
    }
    for word in text.split(' ') {
        let Some(run) = read_run(word) else {
            return Ok(None);
        };
        runs.push(run)?;
    }
    Ok(Some(runs))
}
