ghost use Rattle.std.specs.Prelude.{◌≡◌, ◌^◌};

/// The most columns of a model.
pub const MAX_COLUMNS: usize = 4_096;

/// The most rows of a model.
pub const MAX_ROWS: usize = 4_096;

/// The most terms of all rows of a model together.
pub const MAX_TERMS: usize = 65_536;

/// The greatest absolute value of a bound of a column: 2^31.
pub const MAX_BOUND: u64 = 2_147_483_648;

/// The greatest width of a row or of an objective: 2^50.
pub const MAX_WIDTH: u128 = 1_125_899_906_842_624;

/// The most decimals of an objective.
pub const MAX_DECIMALS: u8 = 9;

/// The most bytes of a name.
pub const MAX_NAME: usize = 255;

/// A law with nothing to run: which numbers the limits are.
pub fn limit_numbers()
    ensures columns { MAX_COLUMNS ≡ 4096 }
    ensures rows { MAX_ROWS ≡ 4096 }
    ensures terms { MAX_TERMS ≡ 65536 }
    ensures bound { MAX_BOUND ≡ 2 ^ 31 }
    ensures width { MAX_WIDTH ≡ 2 ^ 50 }
    ensures decimals { MAX_DECIMALS ≡ 9 }
    ensures name { MAX_NAME ≡ 255 }
{}
