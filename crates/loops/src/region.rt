//! The regions of a loop's table.

/// A set of regions: the bit of value 2^p stands for region p.
#[derive(Clone, Copy, PartialEq, Eq, Debug)]
pub struct RegionSet(pub u16);

/// A region: a send at check k, from `earliest` to `deadline`, leads to a region of the set at k - earliest.
/// Its states are numbered from `first_state` on.
#[derive(Drop)]
pub struct Region {
    pub earliest: u8,
    pub deadline: u8,
    pub first_state: u16,
    pub targets: Vec<RegionSet>,
}

pub(crate) mod load;
