//! Writing a site.
ghost use Rattle.std.specs.Prelude.{◌≡◌, take, IfOk};
ghost use Rattle.site.specs.Loaded.{site_places};
ghost use Rattle.site_write.specs.Refusals.{write_report};
ghost use Rattle.site_write.specs.Writing.{write_answer, write_output, OnlyFile};

use crate::length::{records_len, site_loops};
use crate::paste::put;
use crate::written::put_all;
use site::site::Site;
use site_read::header::MARK;

/// Why a site is not written.
#[derive(Clone, Copy, PartialEq, Eq, Debug)]
pub enum WriteFault {
    /// Every place is vacant.
    NoLoops,
    /// The buffer is too short: this many bytes are wanted.
    TooShort(usize),
}

/// What a refused write is reported by: a number, and the byte offset (of the loop count) or the bytes wanted.
// The number stands here alone: the refusals' numbers are given out by rule, and a fault is an enum.
#[derive(Clone, Copy, PartialEq, Eq, Debug)]
pub struct WriteReport {
    pub number: u8,
    pub value: usize,
}

impl From<WriteFault> for WriteReport {
    ghost from_gives = { λ e r. r ≡ write_report e };

    fn from(e: WriteFault) -> WriteReport {
        match e {
            WriteFault::NoLoops => WriteReport {
                number: 4,
                value: 5,
            },
            WriteFault::TooShort(wanted) => WriteReport {
                number: 15,
                value: wanted,
            },
        }
    }
}

/// Writes the file of the site, answers its length, and leaves the buffer behind it. A refusal leaves all of the buffer.
/// What is written is the one file that loads to this site.
pub fn write_site(site: &Site, out: &mut [u8]) -> Result<usize, WriteFault>
    ensures answer { result ≡ write_answer (site_places site.now) out.old }
    ensures output { out.new ≡ write_output (site_places site.now) out.old }
    ensures only_file { IfOk result (λ n. OnlyFile (site_places site.now) (take n out.new)) }
{
    let count = site_loops(site);
    if count == 0 {
        return Err(WriteFault::NoLoops);
    }
    let wanted = 6 + records_len(site);
    if out.len() < wanted {
        return Err(WriteFault::TooShort(wanted));
    }
    let mark = put(out, 0, MARK);
    let head = put(out, mark, &[0, 1, count]);
    Ok(put_all(&site.places(), out, head))
}
