//! A region loop: which regions there are, when a send may come and must come in each, and where it leads.
ghost use Rattle.std.specs.Prelude.{◌≡◌, true};
ghost use Rattle.site_read.specs.Tables.{lawful_rows};
ghost use Rattle.loops.specs.Regions.{rows_of, numbered};
ghost use Rattle.loops.specs.States.{deadlines};

use crate::region::Region;

/// A state is a region and a count of checks below its deadline; `states` is how many there are.
#[derive(Drop)]
pub struct RegionLoop {
    pub(crate) regions: Vec<Region>,
    pub(crate) states: u16,
    ghost lawful: { lawful_rows (rows_of regions.items) ≡ true },
    ghost firsts: { numbered 0 regions.items ≡ true },
    ghost counted: { states ≡ deadlines (rows_of regions.items) },
}

pub mod load;
pub mod parts;
pub mod questions;
pub(crate) mod stay;
