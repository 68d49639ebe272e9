//! The numbers that the cases are printed with.

/// A number of each type that a case may have in it.
#[derive(Clone, Copy)]
pub struct Numbers {
    pub byte: u8,
    pub mark: u16,
    pub count: usize,
}

/// Small ones, and the largest.
pub const NUMBERS: [Numbers; 3] = [
    Numbers {
        byte: 0,
        mark: 0,
        count: 0,
    },
    Numbers {
        byte: 1,
        mark: 1,
        count: 1,
    },
    Numbers {
        byte: 255,
        mark: 65535,
        count: 18446744073709551615,
    },
];
