//! Reading a region from a region record.
ghost use Rattle.std.specs.Prelude.{◌≡◌, ◌≤◌, IfOk};
ghost use Rattle.site_read.specs.Parse.{many};
ghost use Rattle.site_read.specs.Fields.{target_set, row};
ghost use Rattle.loops.specs.Regions.{sets_of, row_of};
ghost use Rattle.loops.specs.Loading.{Loads};

use crate::load_fault::LoadFault;
use crate::region::{Region, RegionSet};
use site_read::field::RegionReader;
use site_read::limits::Span;
use std::alloc::Global;

fn load_sets<'a>(
    heap: Global,
    reader: RegionReader,
    rest: &'a [u8],
    n: u8,
) -> Result<(Vec<RegionSet>, &'a [u8]), LoadFault>
    ensures { Loads sets_of (many (target_set reader.record.place reader.record.size reader.count) n rest.now) result }
{
    let mut sets = Vec::new(heap);
    let mut left = rest;
    for _ in 0..n {
        let (set, after) = reader.target_set(left)?;
        sets.push(RegionSet(set))?;
        left = after;
    }
    Ok((sets, left))
}

impl Region {
    /// The region that `rest` begins with, and what remains behind it.
    pub(crate) fn load<'a>(
        heap: Global,
        reader: RegionReader,
        rest: &'a [u8],
        first_state: u16,
    ) -> Result<(Region, &'a [u8]), LoadFault>
        ensures read { Loads row_of (row reader.record.place reader.record.size reader.count rest.now) result }
        ensures numbered { IfOk result (λ p. (p.0.first_state ≡ first_state) × (p.0.deadline ≤ 64)) }
    {
        let (Span { earliest, deadline }, rest) = reader.record.span(rest)?;
        let (targets, rest) = load_sets(heap, reader, rest, deadline + 1 - earliest)?;
        Ok((
            Region {
                earliest,
                deadline,
                first_state,
                targets,
            },
            rest,
        ))
    }
}
