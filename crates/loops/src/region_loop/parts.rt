//! What a region loop tells of itself.
ghost use Rattle.std.specs.Prelude.{◌≡◌};
ghost use Rattle.loops.specs.Loading.{table_of};
ghost use Rattle.loops.specs.RegionTraffic.{region_meaning};

use crate::region::Region;
use crate::region_loop::RegionLoop;

impl RegionLoop {
    /// Its regions, in file order.
    pub fn regions(&self) -> &[Region]
        ensures { result.now ≡ self.now.regions.items }
    {
        &self.regions
    }

    /// The sum of its deadlines.
    pub fn states(&self) -> u16
        ensures { result ≡ (region_meaning (table_of self.now)).states }
    {
        self.states
    }
}
