//! The fields of a record.
ghost use Rattle.std.specs.Prelude.{◌≡◌, ◌-◌, ◌≤◌, length, IfOk};
ghost use Rattle.site_read.specs.declared.fault.Fault.TheVariants.{Truncated};
ghost use Rattle.site_read.specs.Parse.{seen};
ghost use Rattle.site_read.specs.Tables.{lawful_set};
ghost use Rattle.site_read.specs.Fields.{ranged as ranged_of, target_set};

use crate::fault::Fault;

/// Whether `set` is nonempty and names only regions below `count`: the bit of value 2^p stands for region p.
fn is_set_below(set: u16, count: u8) -> bool
    ensures { result ≡ lawful_set count set }
{
    set != 0 && (count >= 16 || set < 1 << count)
}

/// Reads the record of loop `place` in a file of `size` bytes. What is left of the file says where a field stands.
// What is left goes beside it: in here, each contract would have to say too that place and size stay.
#[derive(Clone, Copy)]
pub struct RecordReader {
    pub place: u8,
    pub size: usize,
}

impl RecordReader {
    /// The offset of what is left of the file.
    pub fn offset(self, rest: &[u8]) -> usize
        ensures { result ≡ self.size - length rest.now }
    {
        self.size.saturating_sub(rest.len())
    }

    /// The fault of a record whose next field the file doesn't have whole.
    pub(crate) fn cut_short(self) -> Fault
        ensures { result ≡ Truncated self.place self.size }
    {
        Fault::Truncated {
            place: self.place,
            at: self.size,
        }
    }

    /// A number from `low` to `high`, in one byte.
    pub fn ranged<'a>(self, rest: &'a [u8], low: u8, high: u8) -> Result<(u8, &'a [u8]), Fault>
        ensures parsed { seen result ≡ ranged_of self.place self.size low high rest.now }
        ensures bound { IfOk result (λ p. (low ≤ p.0) × (p.0 ≤ high)) }
    {
        let [b, after @ ..] = rest else {
            return Err(self.cut_short());
        };
        if !(low..=high).contains(b) {
            return Err(Fault::Number {
                place: self.place,
                at: self.offset(rest),
            });
        }
        Ok((*b, after))
    }
}

/// Reads the regions of a loop that has `count` of them.
#[derive(Clone, Copy)]
pub struct RegionReader {
    pub record: RecordReader,
    pub count: u8,
}

impl RegionReader {
    /// A nonempty set of the loop's regions, in two bytes.
    pub fn target_set<'a>(self, rest: &'a [u8]) -> Result<(u16, &'a [u8]), Fault>
        ensures { seen result ≡ target_set self.record.place self.record.size self.count rest.now }
    {
        let [high, low, after @ ..] = rest else {
            return Err(self.record.cut_short());
        };
        let set = u16::from_be_bytes([*high, *low]);
        if !is_set_below(set, self.count) {
            return Err(Fault::Set {
                place: self.record.place,
                at: self.record.offset(rest),
            });
        }
        Ok((set, after))
    }
}
