//! Why a site file is refused.
ghost use Rattle.std.specs.Prelude.{◌≡◌, Some};
ghost use Rattle.site_read.specs.Faults.{report as report_of, refusal};

use std::fmt;

/// A fault of a file. `place` is the loop's number in the file, from 1; `at` is a byte's offset in the file.
#[derive(Clone, Copy, PartialEq, Eq, Debug)]
pub enum Fault {
    /// The file ends before or inside a field that is due: `at` is the file's length, and `place` is 0 in the header.
    Truncated { place: u8, at: usize },
    /// The mark differs: `at` is the first wrong byte.
    Mark { at: usize },
    /// The version is not 1.
    Version,
    /// The number of loops is not 1 to 4.
    LoopCount,
    /// The kind is neither 1 nor 2.
    Kind { place: u8, at: usize },
    /// A number is out of its range.
    Number { place: u8, at: usize },
    /// A set is empty, or names a region that there is not.
    Set { place: u8, at: usize },
    /// Bytes follow the last record: `at` is the first of them.
    Trailing { at: usize },
}

/// What a refused file is reported by: a number, a loop (0 for the whole file) and a byte offset.
// The number stands here alone: the refusals' numbers are given out by rule, and a fault is an enum.
#[derive(Clone, Copy, PartialEq, Eq, Debug)]
pub struct Report {
    pub number: u8,
    pub place: u8,
    pub at: usize,
}

impl From<Fault> for Report {
    ghost from_gives = { λ fault report. report ≡ report_of fault };

    fn from(fault: Fault) -> Report {
        let (number, place, at) = match fault {
            Fault::Truncated { place, at } => (1, place, at),
            Fault::Mark { at } => (2, 0, at),
            Fault::Version => (3, 0, 3),
            Fault::LoopCount => (4, 0, 5),
            Fault::Kind { place, at } => (5, place, at),
            Fault::Number { place, at } => (6, place, at),
            Fault::Set { place, at } => (7, place, at),
            Fault::Trailing { at } => (8, 0, at),
        };
        Report { number, place, at }
    }
}

impl fmt::Display for Report {
    ghost output = { λ report. Some (refusal report) };

    fn fmt<W: fmt::Write>(&self, f: &mut fmt::Formatter<W>) -> fmt::Result {
        let Report { number, place, at } = *self;
        write!(f, "refused {number} loop {place} at {at}")
    }
}
