//! Why a table is not loaded: the file is refused, or there is no memory.
ghost use Rattle.std.specs.Prelude.{◌≡◌};
ghost use Rattle.loops.specs.Loading.{load_report};
ghost use Rattle.loops.specs.declared.load_fault.LoadFault.TheVariants.{File, Memory};

use site_read::fault::{Fault, Report};
use std::alloc::AllocFailed;

#[derive(Clone, Copy, PartialEq, Eq, Debug)]
pub enum LoadFault {
    File(Fault),
    Memory,
}

impl LoadFault {
    /// The number, loop and offset of the file's fault; absent for want of memory, which has no number.
    pub fn report(self) -> Option<Report>
        ensures { result ≡ load_report self }
    {
        let LoadFault::File(fault) = self else {
            return None;
        };
        Some(fault.into())
    }
}

// By hand, since clauses name the fault that a `?` makes, and a derived From says nothing of it.
impl From<Fault> for LoadFault {
    ghost from_gives = { λ e r. r ≡ File e };

    fn from(e: Fault) -> LoadFault {
        LoadFault::File(e)
    }
}

impl<T: Drop> From<AllocFailed<T>> for LoadFault {
    ghost from_gives = { λ _ r. r ≡ Memory };

    fn from(_e: AllocFailed<T>) -> LoadFault {
        LoadFault::Memory
    }
}
