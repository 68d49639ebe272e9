//! The kind of a record, which its first byte names.
ghost use Rattle.std.specs.Prelude.{◌≡◌};
ghost use Rattle.site_read.specs.Kinds.{kind_byte, kind_named};

#[derive(Clone, Copy, PartialEq, Eq, Debug)]
pub enum Kind {
    /// The record of a region loop.
    Region,
    /// The record of a contract loop.
    Contract,
}

/// A byte that names no kind.
#[derive(Clone, Copy, PartialEq, Eq, Debug)]
pub struct UnknownKind(pub u8);

impl TryFrom<u8> for Kind {
    type Error = UnknownKind;

    ghost try_from_gives = { λ byte r. r ≡ kind_named byte };

    fn try_from(byte: u8) -> Result<Kind, UnknownKind> {
        match byte {
            1 => Ok(Kind::Region),
            2 => Ok(Kind::Contract),
            _ => Err(UnknownKind(byte)),
        }
    }
}

impl From<Kind> for u8 {
    ghost from_gives = { λ kind byte. byte ≡ kind_byte kind };

    fn from(kind: Kind) -> u8 {
        match kind {
            Kind::Region => 1,
            Kind::Contract => 2,
        }
    }
}
