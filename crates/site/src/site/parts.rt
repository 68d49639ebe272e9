//! What a site tells of itself.
ghost use Rattle.std.specs.Prelude.{◌≡◌, map};
ghost use Rattle.traffic.specs.Answered.{states_of};
ghost use Rattle.loops.specs.declared.place.Place.TheVariants.{Vacant};
ghost use Rattle.site.specs.Held.{vacant};
ghost use Rattle.site.specs.Loaded.{site_places, places_of};
ghost use Rattle.site.specs.SiteTraffic.{site_meaning};

use crate::site::Site;
use loops::place::Place;
use traffic::Traffic;
use traffic::pair::Pair;

fn vacant_pair() -> Pair<Place, Place>
    ensures { result ≡ record { left = Vacant; right = Vacant } }
{
    Pair {
        left: Place::Vacant,
        right: Place::Vacant,
    }
}

impl Site {
    /// A fresh site: every place is vacant.
    pub fn new() -> Site
        ensures { site_places result ≡ vacant }
    {
        let left = vacant_pair();
        let right = vacant_pair();
        Site {
            joined: Pair { left, right },
        }
    }

    /// Its places, in file order.
    pub fn places(&self) -> [&Place; 4]
        ensures { map (λ p. p.now) result ≡ places_of self.now }
    {
        let left = &self.joined.left;
        let right = &self.joined.right;
        [&left.left, &left.right, &right.left, &right.right]
    }

    /// The number of joint states, the product of the places' states; absent over the limits of traffics.
    pub fn states(&self) -> Option<usize>
        ensures { result ≡ states_of (site_meaning (site_places self.now)) }
    {
        let size = self.size()?;
        Some(size.states)
    }
}
