//! The records of a file, each lent from it.
ghost use Rattle.std.specs.Prelude.{◌≡◌, ◌-◌, ◌↔◌, length};
ghost use Rattle.site_read.specs.declared.fault.Fault.{Fault as FaultOf};
ghost use Rattle.site_read.specs.Records.{before, record_of, seen_record, slot as slot_of, seen_slot, pieces, seen_pieces};
ghost use Rattle.site_read.specs.Beginnings.{FaultIn, FieldsMakeFiles};

use crate::fault::Fault;
use crate::field::RecordReader;
use crate::header::header;
use crate::kind::Kind;

/// The part of the file that a record takes: its bytes from the kind on, and the offset of the first.
#[derive(Clone, Copy)]
pub struct Part<'a> {
    pub bytes: &'a [u8],
    pub at: usize,
}

/// The record of a region loop or of a contract loop.
#[derive(Clone, Copy)]
pub enum Record<'a> {
    Region(Part<'a>),
    Contract(Part<'a>),
}

/// The records of a file, in file order.
// Four names and no array: the definition names four, each read behind the one before it, and a loop's invariant would
// have to say that definition again.
#[derive(Clone, Copy)]
pub struct Records<'a> {
    pub first: Option<Record<'a>>,
    pub second: Option<Record<'a>>,
    pub third: Option<Record<'a>>,
    pub fourth: Option<Record<'a>>,
}

impl RecordReader {
    /// What stands before `after` in the rest of the file.
    fn part<'a>(self, rest: &'a [u8], after: &[u8]) -> Part<'a>
        ensures bytes { result.bytes.now ≡ before rest.now after.now }
        ensures at { result.at ≡ self.size - length rest.now }
    {
        Part {
            bytes: &rest[..rest.len().saturating_sub(after.len())],
            at: self.offset(rest),
        }
    }

    /// The record that the rest of the file begins with, and what remains behind it.
    pub fn record<'a>(self, rest: &'a [u8]) -> Result<(Record<'a>, &'a [u8]), Fault>
        ensures { seen_record result ≡ record_of self.place self.size rest.now }
    {
        let place = self.place;
        let [kind, body @ ..] = rest else {
            return Err(self.cut_short());
        };
        let at = self.offset(rest);
        let kind = Kind::try_from(*kind).map_err(|_| Fault::Kind { place, at })?;
        match kind {
            Kind::Region => {
                let after = self.skip_regions(body)?;
                Ok((Record::Region(self.part(rest, after)), after))
            }
            Kind::Contract => {
                let after = self.skip_gaps(body)?;
                Ok((Record::Contract(self.part(rest, after)), after))
            }
        }
    }

    /// The record of this loop, if the file has that many.
    fn slot<'a>(self, count: u8, rest: &'a [u8]) -> Result<(Option<Record<'a>>, &'a [u8]), Fault>
        ensures { seen_slot result ≡ slot_of self.size count self.place rest.now }
    {
        if self.place > count {
            return Ok((None, rest));
        }
        let (record, after) = self.record(rest)?;
        Ok((Some(record), after))
    }
}

// The records behind the header, and nothing behind them.
// Apart from read_records, so that its seven exits speak of the records, and read_records brings the one result to the faults.
fn split_records(file: &[u8]) -> Result<Records<'_>, Fault>
    ensures { seen_pieces result ≡ pieces file.now }
{
    let size = file.len();
    let (count, rest) = header(file)?;
    let (first, rest) = RecordReader { place: 1, size }.slot(count, rest)?;
    let (second, rest) = RecordReader { place: 2, size }.slot(count, rest)?;
    let (third, rest) = RecordReader { place: 3, size }.slot(count, rest)?;
    let (fourth, rest) = RecordReader { place: 4, size }.slot(count, rest)?;
    if !rest.is_empty() {
        return Err(Fault::Trailing {
            at: size.saturating_sub(rest.len()),
        });
    }
    Ok(Records {
        first,
        second,
        third,
        fourth,
    })
}

/// The records of a whole file, or its fault. A file that has no fault is accepted.
pub fn read_records(file: &[u8]) -> Result<Records<'_>, Fault>
    ensures parsed { seen_pieces result ≡ pieces file.now }
    ensures fields { FieldsMakeFiles }
    ensures faults { (fault : FaultOf) → (result ≡ Err fault) ↔ FaultIn file.now fault }
{
    split_records(file)
}
