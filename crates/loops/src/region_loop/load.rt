//! Reading a region loop from its record.
ghost use Rattle.std.specs.Prelude.{◌≡◌, ◌≤◌, true, IfOk};
ghost use Rattle.site_read.specs.Parse.{many, value_of};
ghost use Rattle.site_read.specs.Fields.{row, regions};
ghost use Rattle.site_read.specs.Tables.{lawful_rows};
ghost use Rattle.loops.specs.Regions.{rows_of, numbered};
ghost use Rattle.loops.specs.States.{deadlines};
ghost use Rattle.loops.specs.Loading.{Holds, Anything, Faultless, table_of};

use crate::load_fault::LoadFault;
use crate::region::Region;
use crate::region_loop::RegionLoop;
use site_read::field::{RecordReader, RegionReader};
use std::alloc::Global;

// The regions of a loop, and the number of their states.
// Not one generic loader with load_sets: its clause would have to range over the facts that a closure keeps (Type 1), as
// that states are counted on; so a loop of its own would number the regions then, and two loops would stay two.
fn load_rows(
    heap: Global,
    reader: RegionReader,
    rest: &[u8],
) -> Result<(Vec<Region>, u16), LoadFault>
    ensures read { Holds (λ p. rows_of p.0.items) Anything (value_of (many (row reader.record.place reader.record.size reader.count) reader.count rest.now)) result }
    ensures lawful { 1 ≤ reader.count → reader.count ≤ 16 → IfOk result (λ p. lawful_rows (rows_of p.0.items) ≡ true) }
    ensures counted { IfOk result (λ p. (numbered 0 p.0.items ≡ true) × (p.1 ≡ deadlines (rows_of p.0.items))) }
{
    let mut regions = Vec::new(heap);
    let mut states: u16 = 0;
    let mut left = rest;
    for _ in 0..reader.count {
        let (region, after) = Region::load(heap, reader, left, states)?;
        states += u16::from(region.deadline);
        regions.push(region)?;
        left = after;
    }
    Ok((regions, states))
}

impl RegionLoop {
    // Made as it is read, so that memory may be wanted before a fault is found.
    fn make(heap: Global, reader: RecordReader, rest: &[u8]) -> Result<RegionLoop, LoadFault>
        ensures { Holds table_of Anything (value_of (regions reader.place reader.size rest.now)) result }
    {
        let (count, rest) = reader.ranged(rest, 1, 16)?;
        let regions = RegionReader {
            record: reader,
            count,
        };
        let (regions, states) = load_rows(heap, regions, rest)?;
        Ok(RegionLoop { regions, states })
    }

    /// The table in a region record's bytes, behind its kind. A fault of the record is found before any memory is wanted.
    #[tactic(auto, using(crate::proofs::Fill::wants_nothing_faulty))]
    pub fn load(heap: Global, reader: RecordReader, rest: &[u8]) -> Result<RegionLoop, LoadFault>
        ensures { Holds table_of Faultless (value_of (regions reader.place reader.size rest.now)) result }
    {
        reader.skip_regions(rest)?;
        RegionLoop::make(heap, reader, rest)
    }
}
