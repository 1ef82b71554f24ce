ghost use Rattle.std.specs.Prelude.{◌≡◌, ◌<◌, length};
ghost use Rattle.clock_words.specs.Seats.{due_seen};

use crate::clock::due_count;
use crate::steps::Place;
use std::marker::Model;

/// A seat of a board, which owns one of its slots. Contracts see the board, the slot, its own
/// clock, how many words it has put, of each slot the clock last seen, how often it was looked at
/// and how many of its words were fetched, and the stop mark.
#[derive(Drop)]
pub struct BoardSeat {
    pub(crate) slot: u32,
    /// The own clock word.
    pub(crate) own: u64,
    pub(crate) written: u32,
    /// Of each slot the clock word that was seen last.
    pub(crate) seen: Vec<u64>,
    pub(crate) place: Place,
}

impl Model for BoardSeat {
    ghost use Rattle.clock_words.specs.Seats.{SeatView, seat_view};

    ghost Value = { SeatView };

    ghost use Rattle.clock_words.specs.Mirrors.{IsMirror};

    ghost view = { λ s. seat_view s.place.table_id s.place.me.0 };

    ghost invariant = { IsMirror };
}

impl BoardSeat {
    /// The slot that the seat owns.
    pub fn slot(&self) -> u32
        ensures { result ≡ self.now.slot }
    {
        self.slot
    }

    /// How many words of a slot are due below the clock last seen, none before the first look. It
    /// takes no step.
    pub fn due(&self, slot: u32) -> u32
        requires { slot < length self.now.seen }
        ensures { result ≡ due_seen self.now slot }
    {
        due_count(self.seen[slot as usize])
    }
}
