ghost use Rattle.std.specs.Prelude.{◌≡◌, ◌≤◌, ◌<◌, ◌^◌, ◌+◌};
ghost use Rattle.task_steps.specs.Tasks.{child_name as child_name_of, next_ordinal as next_ordinal_of};

/// The greatest ordinal of a split: 2^37.
const LAST_ORDINAL: u64 = 137_438_953_472;

/// How many names a slot has: 2^40.
const NAMES_OF_A_SLOT: u64 = 1_099_511_627_776;

/// The ordinal of a slot's next split. It stays at 2^37 once it is there.
pub fn next_ordinal(splits: u64) -> u64
    requires { splits ≤ 2 ^ 37 }
    ensures value { result ≡ next_ordinal_of splits }
    ensures few { result ≤ 2 ^ 37 }
{
    (splits + 1).min(LAST_ORDINAL)
}

/// The name of the first child of a split.
pub fn child_name(slot: u32, ordinal: u64) -> u64
    requires slot { slot < 64 }
    requires few { ordinal ≤ 2 ^ 37 }
    ensures value { result ≡ child_name_of slot ordinal }
    ensures room { result + 1 < 2 ^ 64 }
{
    u64::from(slot) * NAMES_OF_A_SLOT + 4 * ordinal
}
