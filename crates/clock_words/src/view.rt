use crate::story::StampedWord;
use ip_core::List;

/// How many slots a board has, and how many words the area of each takes.
#[derive(Clone, Copy, Debug)]
pub struct Shape {
    pub slots: u32,
    pub area: u32,
}

/// What a seat of the table is for.
pub enum Role {
    /// It hands out the slots.
    Maker,
    /// It owns a slot.
    Owner,
    /// It was joined to another.
    Spent,
}

/// What a seat of the table knows. No value of it is made.
pub struct View {
    pub role: Role,
    pub shape: Shape,
    /// The words of each slot.
    pub story: List<List<StampedWord>>,
    /// How many slots the maker has handed out.
    pub handed: u32,
    /// The slot that an owner has.
    pub slot: u32,
    /// An owner's clock word.
    pub own: u64,
    /// How many words an owner has put.
    pub written: u32,
    /// Of each slot the clock word that was seen last.
    pub seen: List<u64>,
    /// How often each slot's clock was loaded.
    pub looks: List<u64>,
    /// How many words of each slot were fetched.
    pub fetched: List<u64>,
    /// Whether a call of the stop was made or seen.
    pub stop: bool,
}
