/// What became of a carrier's next move.
#[derive(Clone, Copy, Debug, PartialEq, Eq)]
pub enum Advance {
    /// The slot made its move, and its clock rose.
    Moved,
    /// The move has to see more of a slot, whose clock was found at this value. The own slot, view,
    /// clock and entries stay.
    Blocked { slot: u32, clock: u64 },
    /// The slot made its move, and is over.
    Ended,
}
