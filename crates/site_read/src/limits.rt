//! The limits that a record sets: of a region, when its send may come; of a contract, how long its gaps and holds are.
ghost use Rattle.std.specs.Prelude.{◌≡◌, ◌≤◌, IfOk};
ghost use Rattle.site_read.specs.Parse.{seen, seen_as};
ghost use Rattle.site_read.specs.Tables.{LawfulGaps};
ghost use Rattle.site_read.specs.Fields.{span as span_of, gaps};
ghost use Rattle.site_read.specs.Records.{gaps_in};

use crate::fault::Fault;
use crate::field::RecordReader;

/// The checks at which a region's send may come: from the earliest to the deadline.
#[derive(Clone, Copy, PartialEq, Eq, Debug)]
pub struct Span {
    pub earliest: u8,
    pub deadline: u8,
}

/// The numbers of a contract, in checks.
#[derive(Clone, Copy, PartialEq, Eq, Debug)]
pub struct Terms {
    pub least_gap: u8,
    pub greatest_gap: u8,
    pub least_hold: u8,
    pub greatest_hold: u8,
}

impl RecordReader {
    /// The two numbers that a region begins with.
    pub fn span<'a>(self, rest: &'a [u8]) -> Result<(Span, &'a [u8]), Fault>
        ensures parsed { seen result ≡ span_of self.place self.size rest.now }
        ensures bound { IfOk result (λ p. (1 ≤ p.0.earliest) × (p.0.earliest ≤ p.0.deadline) × (p.0.deadline ≤ 64)) }
    {
        let (earliest, rest) = self.ranged(rest, 1, 64)?;
        let (deadline, rest) = self.ranged(rest, earliest, 64)?;
        Ok((Span { earliest, deadline }, rest))
    }

    /// The four numbers of a contract.
    pub fn terms<'a>(self, rest: &'a [u8]) -> Result<(Terms, &'a [u8]), Fault>
        ensures parsed { seen_as gaps_in result ≡ gaps self.place self.size rest.now }
        ensures bound { IfOk result (λ p. LawfulGaps (gaps_in p.0)) }
    {
        let (least_gap, rest) = self.ranged(rest, 1, 64)?;
        let (greatest_gap, rest) = self.ranged(rest, least_gap, 64)?;
        let (least_hold, rest) = self.ranged(rest, 1, 16)?;
        let (greatest_hold, rest) = self.ranged(rest, least_hold, 16)?;
        let terms = Terms {
            least_gap,
            greatest_gap,
            least_hold,
            greatest_hold,
        };
        Ok((terms, rest))
    }
}
