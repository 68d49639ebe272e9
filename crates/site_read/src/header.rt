//! The header of a site file: the mark, the version, the number of loops.
ghost use Rattle.std.specs.Prelude.{◌≡◌};
ghost use Rattle.site_read.specs.Header.{header as header_of, mark_fault, version_fault};
ghost use Rattle.site_read.specs.Parse.{seen};

use crate::fault::Fault;

/// The first bytes of every site file.
pub const MARK: &[u8; 3] = b"LKT";

#[tactic(auto, using(crate::proofs::Marks::wrong_here, crate::proofs::Marks::wrong_ends))]
fn check_mark(a: u8, b: u8, c: u8) -> Result<(), Fault>
    ensures { result ≡ mark_fault a b c }
{
    for (at, (found, right)) in [a, b, c].iter().zip(MARK).enumerate() {
        if found != right {
            return Err(Fault::Mark { at });
        }
    }
    Ok(())
}

fn check_version(high: u8, low: u8) -> Result<(), Fault>
    ensures { result ≡ version_fault high low }
{
    if u16::from_be_bytes([high, low]) == 1 {
        return Ok(());
    }
    Err(Fault::Version)
}

/// The number of loops, and the records behind the header.
pub fn header(file: &[u8]) -> Result<(u8, &[u8]), Fault>
    ensures { seen result ≡ header_of file.now }
{
    match file {
        [m0, m1, m2, v0, v1, count, records @ ..] => {
            check_mark(*m0, *m1, *m2)?;
            check_version(*v0, *v1)?;
            if !(1..=4).contains(count) {
                return Err(Fault::LoopCount);
            }
            Ok((*count, records))
        }
        [m0, m1, m2, v0, v1] => {
            check_mark(*m0, *m1, *m2)?;
            check_version(*v0, *v1)?;
            Err(Fault::Truncated { place: 0, at: 5 })
        }
        [m0, m1, m2, ..] => {
            check_mark(*m0, *m1, *m2)?;
            Err(Fault::Truncated {
                place: 0,
                at: file.len(),
            })
        }
        _ => Err(Fault::Truncated {
            place: 0,
            at: file.len(),
        }),
    }
}
