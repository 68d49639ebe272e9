//! Why a call that is given a map is turned away.
ghost use Rattle.std.specs.Prelude.{◌≡◌};
ghost use Rattle.game.specs.Maps.{told};

#[derive(Clone, Copy, PartialEq, Eq, Debug)]
pub enum MapFault {
    /// The traffic has more than 32,768 states or more than 8 loops.
    OverLimits,
    /// The map has fewer marks than the traffic has states.
    ShortMap,
    /// The traffic has no state of this number.
    NoSuchState,
}

impl MapFault {
    /// The refusal's number.
    // A method: u8::from(fault) would not say that it is the refusal's number.
    pub fn number(self) -> u8
        ensures { result ≡ (told self).number }
    {
        match self {
            MapFault::OverLimits => 9,
            MapFault::ShortMap => 10,
            MapFault::NoSuchState => 11,
        }
    }
}
