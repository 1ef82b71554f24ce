ghost use Rattle.std.specs.Prelude.{◌≡◌};
ghost use Rattle.work_stamp.specs.Keys.{is_below};

/// The place of an entry in a history: the count of work of its slot when it was published, and the slot, numbered from 0.
/// Keys are in the order of their stamps, and where those are equal in the order of their slots.
#[derive(Clone, Copy, Debug, PartialEq, Eq, PartialOrd, Ord)]
pub struct Key {
    pub stamp: u64,
    pub slot: u32,
}

impl Key {
    /// Whether this key comes before another.
    pub fn is_below(self, other: Key) -> bool
        ensures { result ≡ is_below self other }
    {
        self < other
    }
}
