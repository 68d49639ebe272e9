//! Where two maps differ.
ghost use Rattle.std.specs.Prelude.{◌≡◌};
ghost use Rattle.cases.specs.Differences.{first_difference_from};

use std::fmt;

/// A place of a map that holds something else than expected.
#[derive(Clone, Copy)]
pub struct Difference {
    pub place: usize,
    pub found: u16,
    pub expected: u16,
}

impl fmt::Display for Difference {
    fn fmt<W: fmt::Write>(&self, f: &mut fmt::Formatter<W>) -> fmt::Result {
        let Difference {
            place,
            found,
            expected,
        } = *self;
        write!(
            f,
            "place {place} of the map has {found}, expected {expected}"
        )
    }
}

/// The first place where two maps differ, as far as both go.
pub fn first_difference(map: &[u16], expected: &[u16]) -> Option<Difference>
    ensures { result ≡ first_difference_from 0 map.now expected.now }
{
    for place in 0..map.len().min(expected.len()) {
        if map[place] != expected[place] {
            return Some(Difference {
                place,
                found: map[place],
                expected: expected[place],
            });
        }
    }
    None
}
