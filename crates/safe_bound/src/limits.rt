/// The greatest multiplier of a row: 2^40.
pub const MAX_MULTIPLIER: u64 = 1_099_511_627_776;

/// The scale of multipliers and reduced costs: each stands for itself divided by this.
pub const SCALE: i128 = 1_024;
