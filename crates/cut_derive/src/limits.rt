/// The greatest divisor of a weighted sum of rows: 2^62.
pub const MAX_DIVISOR: u64 = 4_611_686_018_427_387_904;

/// The most parts, and the most columns, of a derivation.
pub const MAX_PARTS: usize = 256;

/// The most terms of a derived row.
pub const MAX_CUT_TERMS: usize = 256;

/// The most cuts of a search. `derive` doesn't look at it, and a certificate may have more: it is the search for cuts
/// (`separate` of the crate `cut_separate`) that gives none past it, and the definition of a history (`MayFollow` of the
/// crate `node_pool`) that lets an entry with a cut follow only while there are fewer.
pub const MAX_CUTS: usize = 512;
