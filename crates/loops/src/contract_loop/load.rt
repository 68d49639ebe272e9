//! Reading a contract loop from its record.
ghost use Rattle.std.specs.Prelude.{◌≡◌};
ghost use Rattle.site_read.specs.Parse.{value_of};
ghost use Rattle.site_read.specs.Fields.{gaps};
ghost use Rattle.loops.specs.Loading.{seen_gaps};

use crate::contract_loop::ContractLoop;
use site_read::fault::Fault;
use site_read::field::RecordReader;

impl ContractLoop {
    /// The table in a contract record's bytes, behind its kind.
    pub fn load(reader: RecordReader, rest: &[u8]) -> Result<ContractLoop, Fault>
        ensures { seen_gaps result ≡ value_of (gaps reader.place reader.size rest.now) }
    {
        let (terms, _) = reader.terms(rest)?;
        Ok(ContractLoop { terms })
    }
}
