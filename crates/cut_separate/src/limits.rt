/// The most divisors of a row that are tried.
pub const MAX_DIVISORS: usize = 8;

/// The most cuts that one call of `separate` gives.
pub const MAX_NEW_CUTS: usize = 16;
