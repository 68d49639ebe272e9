//! Why a grant or a report is turned away.
ghost use Rattle.std.specs.Prelude.{◌≡◌};
ghost use Rattle.keeper.specs.Faults.{told};
ghost use Rattle.keeper.specs.declared.slot_fault.SlotFault.TheVariants.{Map};

use game::map_fault::MapFault;

#[derive(Clone, Copy, PartialEq, Eq, Debug)]
pub enum SlotFault {
    Map(MapFault),
    /// The move is not permitted in the state that the keeper holds.
    NotPermitted,
    /// The state reported is no next state of the granted move.
    NoNextState,
}

impl From<MapFault> for SlotFault {
    ghost from_gives = { λ e r. r ≡ Map e };

    fn from(e: MapFault) -> SlotFault {
        SlotFault::Map(e)
    }
}

impl SlotFault {
    /// The refusal's number.
    // A method: u8::from(fault) would not say that it is the refusal's number.
    pub fn number(self) -> u8
        ensures { result ≡ (told self).number }
    {
        match self {
            SlotFault::Map(fault) => fault.number(),
            SlotFault::NotPermitted => 13,
            SlotFault::NoNextState => 14,
        }
    }
}
