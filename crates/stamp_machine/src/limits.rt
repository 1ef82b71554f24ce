/// How many slots there are, how much work each may count, and how many words each may publish: 1 to 64 slots, work of at
/// most 10^12, and a store of 64 words or more, for all slots together at most 2^22.
#[derive(Clone, Copy, Debug, PartialEq, Eq)]
pub struct Limits {
    pub slots: u32,
    pub work: u64,
    pub store: u32,
}
