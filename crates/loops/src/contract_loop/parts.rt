//! What a contract loop tells of itself.
ghost use Rattle.std.specs.Prelude.{◌≡◌};
ghost use Rattle.loops.specs.Loading.{gaps_of};
ghost use Rattle.loops.specs.ContractTraffic.{contract_meaning};

use crate::contract_loop::{ContractLoop, Terms};

impl ContractLoop {
    pub fn terms(&self) -> Terms
        ensures { result ≡ self.now.terms }
    {
        self.terms
    }

    /// A state for each check of a gap, and one for each check that a message goes on holding.
    pub fn states(&self) -> u16
        ensures { result ≡ (contract_meaning (gaps_of self.now)).states }
    {
        u16::from(self.terms.greatest_gap) + u16::from(self.terms.greatest_hold) - 1
    }
}
