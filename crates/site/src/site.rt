//! The site, and what it holds.
ghost use Rattle.std.specs.Prelude.{◌≡◌, true};
ghost use Rattle.site_read.specs.Format.{in_order};
ghost use Rattle.site.specs.Held.{held_by};

use loops::place::Place;
use traffic::pair::Pair;

/// Four places in file order, joined as a pair of pairs. No loop stands behind a vacant place.
#[derive(Drop)]
pub struct Site {
    joined: Pair<Pair<Place, Place>, Pair<Place, Place>>,
    ghost order: { in_order (held_by joined.left.left joined.left.right joined.right.left joined.right.right) ≡ true },
}

pub mod group;
pub mod load;
pub mod parts;
pub mod questions;
