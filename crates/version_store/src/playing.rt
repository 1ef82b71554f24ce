ghost use Rattle.std.specs.Prelude.{◌≡◌};
ghost use Rattle.version_store.specs.Advances.{clock_while_whole, ended_while_whole, lives_while_whole};

use crate::{Advance, Heard};
use clock_words::BoardSeat;
use commit_order::Merge;
use ip_core::List;
use stamp_machine::Slot;
use work_stamp::KeyedEntry;

/// What a carrier works with.
#[derive(Drop)]
pub struct Playing<V, L> {
    /// The replica: the view of the entries that were absorbed.
    pub view: V,
    /// The entries that were fetched or published, and wait to be absorbed.
    pub merge: Merge,
    /// What was fetched of each slot.
    pub heard: List<Heard>,
    /// The slot's own entries among those absorbed.
    pub mine: List<KeyedEntry>,
    pub slot: Slot<L>,
    /// How many moves the slot has made.
    pub moves: u64,
}

/// What a carrier is made of: its seat, and what it works with unless it is broken.
#[derive(Drop)]
pub struct Parts<V, L> {
    pub seat: BoardSeat,
    pub playing: Option<Playing<V, L>>,
}

impl<V, L> Parts<V, L> {
    /// The slot's clock, 0 where there is nothing to work with.
    pub fn clock(&self) -> u64
        ensures { result ≡ clock_while_whole self.now.playing }
    {
        match &self.playing {
            Some(playing) => playing.slot.clock,
            None => 0,
        }
    }

    /// Whether the slot is over.
    pub fn is_ended(&self) -> bool
        ensures { result ≡ ended_while_whole self.now.playing }
    {
        match &self.playing {
            Some(playing) => playing.slot.live.is_none(),
            None => false,
        }
    }

    /// Whether there is a slot to work with, which lives.
    pub fn lives(&self) -> bool
        ensures { result ≡ lives_while_whole self.now.playing }
    {
        match &self.playing {
            Some(playing) => playing.slot.live.is_some(),
            None => false,
        }
    }
}

/// A move up to its chunk.
#[derive(Drop)]
pub enum Start<V, L> {
    /// The move is done.
    Done(Playing<V, L>),
    /// The move has to see more of a slot, whose clock was found at this value.
    Blocked {
        playing: Playing<V, L>,
        slot: u32,
        clock: u64,
    },
    /// The slot goes on with a chunk at this local. Here the slot itself is not live.
    Goes {
        playing: Playing<V, L>,
        local: L,
    },
}

/// What a step of a carrier comes to.
#[derive(Drop)]
pub struct Stepped<V, L> {
    pub playing: Playing<V, L>,
    pub advance: Advance,
}
