//! A contract loop: how long it waits between messages, and how long a message holds the channel.
ghost use Rattle.site_read.specs.Tables.{LawfulGaps};
ghost use Rattle.site_read.specs.Records.{gaps_in};

pub use site_read::limits::Terms;

#[derive(Clone, Copy)]
pub struct ContractLoop {
    pub(crate) terms: Terms,
    ghost lawful: { LawfulGaps (gaps_in terms) },
}

pub mod load;
pub(crate) mod moment;
pub mod parts;
pub mod questions;
