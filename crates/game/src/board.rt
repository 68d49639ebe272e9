//! The board of a game: a traffic, and a map of marks for its states, from any caller. It answers about a state whether a
//! move is permitted, the pick and the spoiler. On a map that synthesis filled for the same traffic, the answers are those
//! of the game.
ghost use Rattle.std.specs.Prelude.{◌≡◌, length, Some, None, Ok, Err, MatchResult};
ghost use Rattle.traffic.specs.Answered.{sized};
ghost use Rattle.game.specs.Game.{permitted_by};
ghost use Rattle.game.specs.Choice.{pick_by, spoiler_by};
ghost use Rattle.game.specs.Standing.{on};
ghost use Rattle.traffic.specs.Refusals.{unless};
ghost use Rattle.game.specs.Maps.{turned_away, unless_turned_away, Filled};
ghost use Rattle.game.specs.Counsel.{ExactlySafe, LowestSafe, LeadsDown};

use crate::map_fault::MapFault;
use crate::marks::{Bounded, Marks};
use traffic::next_states::next_states;
use traffic::{Size, Traffic};

/// A traffic, and any map: one that has no mark for each of its states is refused when a question is asked.
#[derive_where(Clone, Copy)]
pub struct Board<'a, T> {
    pub traffic: &'a T,
    pub map: &'a [u16],
}

/// The traffic's size, if a map of so many marks serves for a call about this state.
pub fn admit<T: Traffic>(traffic: &T, marks: usize, state: usize) -> Result<Size, MapFault>
    ensures { result ≡ unless Err (turned_away (T.meaning traffic.now) marks state) (Ok (sized (T.meaning traffic.now))) }
{
    let size = traffic.size().ok_or(MapFault::OverLimits)?;
    if marks < size.states {
        return Err(MapFault::ShortMap);
    }
    if state >= size.states {
        return Err(MapFault::NoSuchState);
    }
    Ok(size)
}

impl<T: Traffic> Marks<'_, '_, T> {
    // The lowest permitted move.
    fn lowest_permitted(&self, state: usize) -> Option<usize>
        ensures { result ≡ pick_by (T.meaning self.now.bounded.traffic.now) (on self.now.map.now) state }
    {
        (0..=self.bounded.size.loops).find(|mv| self.standing_next(None, state, *mv).is_some())
    }

    // The next state with the smallest mark above 0, the lower number among equals.
    // A loop, which asks for a next state in one place: `min_by_key` asks in two, and takes longer.
    fn worst_next(&self, state: usize, mv: usize) -> Option<usize>
        ensures { result ≡ spoiler_by (T.meaning self.now.bounded.traffic.now) (on self.now.map.now) state mv }
    {
        let map = self.map;
        let mut worst: Option<usize> = None;
        for t in next_states(self.bounded.traffic, state, mv) {
            if map[t] > 0 && worst.is_none_or(|w| map[t] < map[w]) {
                worst = Some(t);
            }
        }
        worst
    }
}

impl<'a, T: Traffic> Board<'a, T> {
    // The marks for a call about this state, if the map serves for it.
    fn marks(self, state: usize) -> Result<Marks<'a, 'a, T>, MapFault>
        ensures { MatchResult result (λ m. (turned_away (T.meaning self.entry.traffic.now) (length self.entry.map.now) state ≡ None) × (m.bounded.traffic ≡ self.entry.traffic) × (m.map ≡ self.entry.map)) (λ f. turned_away (T.meaning self.entry.traffic.now) (length self.entry.map.now) state ≡ Some f) }
    {
        let size = admit(self.traffic, self.map.len(), state)?;
        Ok(Marks {
            bounded: Bounded {
                traffic: self.traffic,
                size,
            },
            map: self.map,
        })
    }

    /// The traffic's size, if the map serves for a call about this state.
    pub fn admit(self, state: usize) -> Result<Size, MapFault>
        ensures { result ≡ unless_turned_away (T.meaning self.entry.traffic.now) self.entry.map.now state (sized (T.meaning self.entry.traffic.now)) }
    {
        admit(self.traffic, self.map.len(), state)
    }

    /// Whether a move is permitted in a state: it is legal and all its next states have mark 0.
    pub fn permits(self, state: usize, mv: usize) -> Result<bool, MapFault>
        ensures answer { result ≡ unless_turned_away (T.meaning self.entry.traffic.now) self.entry.map.now state (permitted_by (T.meaning self.entry.traffic.now) (on self.entry.map.now) state mv) }
        ensures safe { Filled (T.meaning self.entry.traffic.now) self.entry.map.now → ExactlySafe (T.meaning self.entry.traffic.now) state mv result }
    {
        Ok(self.marks(state)?.standing_next(None, state, mv).is_some())
    }

    /// The lowest permitted move of a state, so that silence comes first; absent where none is permitted.
    pub fn pick(self, state: usize) -> Result<Option<usize>, MapFault>
        ensures answer { result ≡ unless_turned_away (T.meaning self.entry.traffic.now) self.entry.map.now state (pick_by (T.meaning self.entry.traffic.now) (on self.entry.map.now) state) }
        ensures safe { Filled (T.meaning self.entry.traffic.now) self.entry.map.now → LowestSafe (T.meaning self.entry.traffic.now) state result }
    {
        Ok(self.marks(state)?.lowest_permitted(state))
    }

    /// The plants' counterplay to a move: the next state with the smallest mark above 0, the lower number among equals;
    /// absent where none has such a mark.
    pub fn spoiler(self, state: usize, mv: usize) -> Result<Option<usize>, MapFault>
        ensures answer { result ≡ unless_turned_away (T.meaning self.entry.traffic.now) self.entry.map.now state (spoiler_by (T.meaning self.entry.traffic.now) (on self.entry.map.now) state mv) }
        ensures down { Filled (T.meaning self.entry.traffic.now) self.entry.map.now → LeadsDown (T.meaning self.entry.traffic.now) state mv result }
    {
        Ok(self.marks(state)?.worst_next(state, mv))
    }
}
