//! How far a record goes: each function checks its fields and answers what the file has behind them.
ghost use Rattle.std.specs.Prelude.{◌≡◌, ℕ, List, Result};
ghost use Rattle.site_read.specs.declared.fault.Fault.{Fault as FaultOf};
ghost use Rattle.site_read.specs.Parse.{seen_rest, rest_of, many, skips, Skips};
ghost use Rattle.site_read.specs.Fields.{target_set, row, regions, gaps};

use crate::fault::Fault;
use crate::field::{RecordReader, RegionReader};
use crate::limits::Span;

/// Skips `n` parts of a record, one after another.
fn skip_many<'a, F: Fn(&'a [u8]) -> Result<&'a [u8], Fault>>(
    rest: &'a [u8],
    n: u8,
    skip: F,
) -> Result<&'a [u8], Fault>
    requires { F.IsAlwaysCallable skip }
    ensures { (part : List ℕ → Result (List ℕ) FaultOf) → Skips (F.post skip) part → seen_rest result ≡ skips part n rest.now }
{
    let mut left = rest;
    for _ in 0..n {
        left = skip(left)?;
    }
    Ok(left)
}

impl RecordReader {
    pub(crate) fn skip_gaps<'a>(self, rest: &'a [u8]) -> Result<&'a [u8], Fault>
        ensures { seen_rest result ≡ rest_of (gaps self.place self.size rest.now) }
    {
        let (_, rest) = self.terms(rest)?;
        Ok(rest)
    }

    /// The regions of a record, behind its kind: what the file has behind them.
    pub fn skip_regions<'a>(self, rest: &'a [u8]) -> Result<&'a [u8], Fault>
        ensures { seen_rest result ≡ rest_of (regions self.place self.size rest.now) }
    {
        let (count, rest) = self.ranged(rest, 1, 16)?;
        let regions = RegionReader {
            record: self,
            count,
        };
        regions.skip_rows(rest)
    }
}

impl RegionReader {
    fn skip_set<'a>(self, rest: &'a [u8]) -> Result<&'a [u8], Fault>
        ensures { seen_rest result ≡ rest_of (target_set self.record.place self.record.size self.count rest.now) }
    {
        let (_, rest) = self.target_set(rest)?;
        Ok(rest)
    }

    fn skip_sets<'a>(self, rest: &'a [u8], n: u8) -> Result<&'a [u8], Fault>
        ensures { seen_rest result ≡ rest_of (many (target_set self.record.place self.record.size self.count) n rest.now) }
    {
        skip_many(rest, n, |left| self.skip_set(left))
    }

    fn skip_row<'a>(self, rest: &'a [u8]) -> Result<&'a [u8], Fault>
        ensures { seen_rest result ≡ rest_of (row self.record.place self.record.size self.count rest.now) }
    {
        let (Span { earliest, deadline }, rest) = self.record.span(rest)?;
        self.skip_sets(rest, deadline + 1 - earliest)
    }

    fn skip_rows<'a>(self, rest: &'a [u8]) -> Result<&'a [u8], Fault>
        ensures { seen_rest result ≡ rest_of (many (row self.record.place self.record.size self.count) self.count rest.now) }
    {
        skip_many(rest, self.count, |left| self.skip_row(left))
    }
}
