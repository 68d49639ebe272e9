//! A place of a site: it holds a region loop, a contract loop or nothing.
ghost use Rattle.std.specs.Prelude.{◌≡◌, drop};
ghost use Rattle.std.specs.Option.{option_map};
ghost use Rattle.site_read.specs.Records.{piece_of};
ghost use Rattle.site_read.specs.Sites.{piece_table};
ghost use Rattle.loops.specs.Loading.{Holds, RegionLoopRead};
ghost use Rattle.loops.specs.Places.{place_table};
ghost use Rattle.loops.specs.PlaceTraffic.{table_meaning};

use crate::contract_loop::ContractLoop;
use crate::load_fault::LoadFault;
use crate::region_loop::RegionLoop;
use site_read::field::RecordReader;
use site_read::records::Record;
use std::alloc::Global;

pub mod questions;

#[derive(Drop)]
pub enum Place {
    Vacant,
    Region(RegionLoop),
    Contract(ContractLoop),
}

/// A record's fields, behind its kind.
fn fields(bytes: &[u8]) -> &[u8]
    ensures { result.now ≡ drop 1 bytes.now }
{
    match bytes {
        [_, body @ ..] => body,
        [] => bytes,
    }
}

impl Place {
    /// The table of a lent record; without a record the place is vacant. Only a region loop wants memory, and only once its
    /// record is read without a fault.
    pub fn load(
        heap: Global,
        reader: RecordReader,
        lent: Option<Record<'_>>,
    ) -> Result<Place, LoadFault>
        ensures { Holds place_table RegionLoopRead (piece_table reader.place reader.size (option_map piece_of lent.entry)) result }
    {
        match lent {
            None => Ok(Place::Vacant),
            Some(Record::Region(r)) => {
                let table = RegionLoop::load(heap, reader, fields(r.bytes))?;
                Ok(Place::Region(table))
            }
            Some(Record::Contract(r)) => {
                let table = ContractLoop::load(reader, fields(r.bytes))?;
                Ok(Place::Contract(table))
            }
        }
    }

    /// How many states its loop has; a vacant place has one.
    pub fn states(&self) -> u16
        ensures { result ≡ (table_meaning (place_table self.now)).states }
    {
        match self {
            Place::Vacant => 1,
            Place::Region(x) => x.states(),
            Place::Contract(x) => x.states(),
        }
    }
}
