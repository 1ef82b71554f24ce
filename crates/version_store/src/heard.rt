/// What a carrier has fetched of another slot: all of its words that are due below a clock.
#[derive(Clone, Copy, Debug)]
pub struct Heard {
    pub clock: u64,
    /// How many words that are.
    pub count: u32,
}
