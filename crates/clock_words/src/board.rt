ghost use Rattle.std.specs.Prelude.{◌≡◌, ◌+◌, ◌<◌, ◌≤◌, ◌||◌, true, length, map, drop, take, IfOk};
ghost use Rattle.clock_words.specs.Clocks.{IsStamp};
ghost use Rattle.clock_words.specs.Places.{IsShape};
ghost use Rattle.clock_words.specs.Seats.{IsSeat, clock_seen, due_seen, new_seats, own_list, with_fetch, with_join, with_look};
ghost use Rattle.clock_words.specs.Stories.{AreWithin, due, list_of, stamped_word, words_of};

use crate::clock::{raised_word, stamp_of};
use crate::rule::{BoardRule, Setup, TakeIn};
use crate::seat::BoardSeat;
use crate::seating::{hand_out, keep_greater, zero_words};
use crate::steps::{
    load_clock, load_stop, load_words, peek_clock, raise_clock, raise_stop, store_words,
};
use crate::story::Story;
use crate::view::{Shape, View};
use atomic_table::Table;
use ip_core::{List, OutOfMemory};
use std::alloc::Global;
use std::marker::Model;
use std::snapshot::Snapshot;

/// What the slots of a search see of each other. Contracts see which board it is, its shape, and
/// the lists of its story.
///
/// Each call that takes a seat has the condition that the seat is one of this board's. All but
/// `new` take no memory, wait for nobody and refuse nothing.
#[derive(Drop)]
pub struct Board<S: Story> {
    story: S,
    shape: Shape,
    table: Table<(), View, Setup<S>, BoardRule<S>, Global>,
}

impl<S: Story> Model for Board<S> {
    ghost use Rattle.clock_words.specs.Seats.{BoardView, IsBoard};

    ghost Value = { BoardView };

    ghost view = { λ b.
        record { table = b.table.shared.table_id; shape = b.shape; story = S.lists b.story } };

    ghost invariant = { λ b. IsBoard b.shape (S.lists b.story) b.table.shared.table_id
        b.table.shared.key.shape (S.lists b.table.shared.key.story.value) };
}

impl<S: Story> Board<S> {
    /// A board for 1 to 64 slots with areas of at most 2^22 words, and its seats in the order of
    /// their slots: seat i owns slot i. No slot's list may be longer than the area. All clocks are
    /// 0, and no stop was called.
    pub fn new(
        alloc: Global,
        story: S,
        slots: u32,
        area: u32,
    ) -> Result<(Board<S>, List<BoardSeat>), OutOfMemory>
    where
        S: Drop,
        requires sizes { IsShape slots area }
        requires within { AreWithin area (S.lists story) }
        ensures shape { IfOk result (λ made. made.0.shape ≡ record { slots = slots; area = area }) }
        ensures story { IfOk result (λ made. made.0.story ≡ S.lists story) }
        ensures seats { IfOk result (λ made. made.1 ≡ new_seats made.0 slots) }
    {
        let shape = Shape { slots, area };
        let words = zero_words(alloc, shape)?;
        let setup = Setup {
            story: Snapshot::of(&story),
            shape,
        };
        let (table, maker) = Table::of_words(alloc, words.as_slice(), &setup)?;
        let seats = hand_out(alloc, &table.shared, maker, slots)?;
        let board = Board {
            story,
            shape,
            table,
        };
        Ok((board, seats))
    }

    /// Loads a slot's clock. The answer is at least what the seat saw before, and becomes what it
    /// has seen.
    pub fn look(&self, seat: &mut BoardSeat, slot: u32) -> u64
        requires seat { IsSeat self.now seat.old }
        requires slot { slot < self.now.shape.slots }
        ensures seat { IsSeat self.now seat.new }
        ensures view { seat.new ≡ with_look slot result seat.old }
        ensures later { clock_seen seat.old slot ≤ result }
    {
        let word = load_clock(&self.table.shared, &mut seat.place, slot);
        seat.seen[slot as usize] = word;
        stamp_of(word)
    }

    /// A slot's clock as it stands now, for those who wait for it. It needs no seat, and no contract
    /// says which clock it is: what is due is known after a look alone.
    pub fn hint(&self, slot: u32) -> u64
        requires { slot < self.now.shape.slots }
        ensures { IsStamp result }
    {
        stamp_of(peek_clock(&self.table.shared, slot))
    }

    /// Loads words of a slot from a place on, which are due below the clock seen. They become the
    /// story's words at these places.
    pub fn fetch(&self, seat: &mut BoardSeat, slot: u32, from: u32, out: &mut [u64])
        requires seat { IsSeat self.now seat.old }
        requires slot { slot < self.now.shape.slots }
        requires are_due { from + length out.old ≤ due_seen seat.old slot }
        ensures seat { IsSeat self.now seat.new }
        ensures view { seat.new ≡ with_fetch slot (length out.old) seat.old }
        ensures words { out.new ≡
            take (length out.old) (drop from (words_of (list_of self.now.story slot))) }
    {
        load_words(
            &self.table.shared,
            &mut seat.place,
            self.shape,
            slot,
            from,
            out,
        );
    }

    /// Stores the next words of the own slot's story, each of which has the own clock as its stamp.
    pub fn put(&self, seat: &mut BoardSeat, words: &[u64])
        requires seat { IsSeat self.now seat.old }
        requires next { take (length words.now) (drop seat.old.written (own_list seat.old)) ≡
            map (stamped_word seat.old.own) words.now }
        ensures seat { IsSeat self.now seat.new }
        ensures view { seat.new ≡
            record seat.old { written = seat.old.written + length words.now } }
    {
        let (slot, written) = (seat.slot, seat.written);
        store_words(
            &self.table.shared,
            &mut seat.place,
            self.shape,
            slot,
            written,
            words,
        );
        seat.written += words.len() as u32;
    }

    /// Raises the own clock, by one step. The stamp is at least the own clock and below 2^41 - 1,
    /// or it is `END_STAMP`, and every own word that is due below it was put.
    pub fn raise(&self, seat: &mut BoardSeat, stamp: u64)
        requires seat { IsSeat self.now seat.old }
        requires stamp { IsStamp stamp }
        requires later { seat.old.own ≤ stamp }
        requires written { due (own_list seat.old) stamp ≤ seat.old.written }
        ensures seat { IsSeat self.now seat.new }
        ensures view { seat.new ≡ record seat.old { own = stamp } }
    {
        let words = &self.table.shared;
        let word = raised_word(seat.own, seat.written, stamp);
        raise_clock(words, &mut seat.place, seat.slot, word);
        seat.own = word;
    }

    /// Calls the stop, and sets the seat's stop mark.
    pub fn call_stop(&self, seat: &mut BoardSeat)
        requires seat { IsSeat self.now seat.old }
        ensures seat { IsSeat self.now seat.new }
        ensures view { seat.new ≡ record seat.old { stop = true } }
    {
        raise_stop(&self.table.shared, &mut seat.place);
    }

    /// Loads the stop word, sets the seat's stop mark where a stop was called, and says whether the
    /// mark is set. A mark that is set stays.
    pub fn stop_seen(&self, seat: &mut BoardSeat) -> bool
        requires seat { IsSeat self.now seat.old }
        ensures seat { IsSeat self.now seat.new }
        ensures view { seat.new ≡ record seat.old { stop = result } }
        ensures stays { seat.old.stop ≡ true → result ≡ true }
    {
        load_stop(&self.table.shared, &mut seat.place)
    }

    /// Joins another seat of this board to a seat, which takes the greater of the clocks seen and
    /// the stop mark of either.
    pub fn join(&self, seat: &mut BoardSeat, other: BoardSeat)
        requires seat { IsSeat self.now seat.old }
        requires other { IsSeat self.now other }
        ensures seat { IsSeat self.now seat.new }
        ensures view { seat.new ≡ with_join seat.old other }
    {
        let words = &self.table.shared;
        let BoardSeat { seen, place, .. } = other;
        keep_greater(&mut seat.seen, seen.as_slice());
        words.join_seat::<TakeIn>(&mut seat.place, place);
    }
}
