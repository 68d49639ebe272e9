//! What stands in a file, and writing it.
ghost use Rattle.std.specs.Prelude.{◌≡◌, ℕ, ◌+◌, ◌≤◌, List, length};
ghost use Rattle.std.specs.List.{flat_map};
ghost use Rattle.site_read.specs.Tables.{by_regions, by_contract};
ghost use Rattle.site_read.specs.Format.{word, encode_row, encode, placed};
ghost use Rattle.loops.specs.Regions.{row_of};
ghost use Rattle.loops.specs.Loading.{table_of, gaps_of};
ghost use Rattle.loops.specs.Places.{place_table};
ghost use Rattle.site_write.specs.Paste.{pasted};

use crate::paste::put;
use loops::contract_loop::ContractLoop;
use loops::place::Place;
use loops::region::{Region, RegionSet};
use loops::region_loop::RegionLoop;
use site_read::kind::Kind;

// A struct that holds the buffer and the end would be no plainer: each contract would also say that it keeps the buffer.

/// A part of a site, with the bytes that stand for it in a file.
pub(crate) trait Written {
    ghost bytes: { Self → List ℕ };

    /// Writes the bytes from `at` on, and answers where they end.
    fn put_at(&self, out: &mut [u8], at: usize) -> usize
        requires { at + length (bytes self.now) ≤ length out.old }
        ensures end { result ≡ at + length (bytes self.now) }
        ensures output { out.new ≡ pasted out.old at (bytes self.now) };
}

/// Writes one item after another.
pub(crate) fn put_all<T: Written>(items: &[T], out: &mut [u8], at: usize) -> usize
    requires { at + length (flat_map T.Written.bytes items.now) ≤ length out.old }
    ensures end { result ≡ at + length (flat_map T.Written.bytes items.now) }
    ensures output { out.new ≡ pasted out.old at (flat_map T.Written.bytes items.now) }
{
    let mut end = at;
    for item in items {
        end = item.put_at(out, end);
    }
    end
}

impl<T: Written> Written for &T {
    ghost bytes = { λ x. T.Written.bytes x.now };

    fn put_at(&self, out: &mut [u8], at: usize) -> usize {
        (**self).put_at(out, at)
    }
}

impl Written for RegionSet {
    ghost bytes = { λ s. word s.0 };

    fn put_at(&self, out: &mut [u8], at: usize) -> usize {
        put(out, at, &self.0.to_be_bytes())
    }
}

impl Written for Region {
    ghost bytes = { λ r. encode_row (row_of r) };

    fn put_at(&self, out: &mut [u8], at: usize) -> usize {
        let sets = put(out, at, &[self.earliest, self.deadline]);
        put_all(&self.targets, out, sets)
    }
}

impl Written for RegionLoop {
    ghost bytes = { λ x. encode (by_regions (table_of x)) };

    fn put_at(&self, out: &mut [u8], at: usize) -> usize {
        let regions = self.regions();
        let rows = put(out, at, &[Kind::Region.into(), regions.len() as u8]);
        put_all(regions, out, rows)
    }
}

impl Written for ContractLoop {
    ghost bytes = { λ x. encode (by_contract (gaps_of x)) };

    fn put_at(&self, out: &mut [u8], at: usize) -> usize {
        let terms = self.terms();
        put(
            out,
            at,
            &[
                Kind::Contract.into(),
                terms.least_gap,
                terms.greatest_gap,
                terms.least_hold,
                terms.greatest_hold,
            ],
        )
    }
}

impl Written for Place {
    ghost bytes = { λ p. placed (place_table p) };

    fn put_at(&self, out: &mut [u8], at: usize) -> usize {
        match self {
            Place::Vacant => at,
            Place::Region(x) => x.put_at(out, at),
            Place::Contract(x) => x.put_at(out, at),
        }
    }
}
