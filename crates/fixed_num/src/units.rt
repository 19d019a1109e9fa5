//! The units of counts: their decimals, and the limits of the counts.

/// The decimals of a millionth, a billionth and a trillionth.
pub(crate) const MICRO_DECIMALS: u32 = 6;

pub(crate) const NANO_DECIMALS: u32 = 9;

pub(crate) const PICO_DECIMALS: u32 = 12;

/// Counts of millionths, of billionths and of trillionths are below these in size.
pub(crate) const MICRO_LIMIT: u64 = 1_000_000_000_000;

pub(crate) const NANO_LIMIT: u64 = 1_000_000_000_000_000;

pub(crate) const PICO_LIMIT: u64 = 1_000_000_000_000_000_000;
