//! The steps of a seat on the table. Each is one atomic step on one word, or a row of them.
ghost use Rattle.std.specs.Prelude.{◌≡◌, ◌+◌, ◌<◌, ◌≤◌, true, length, map, drop, take, nat_lt, slice_index};
ghost use Rattle.clock_words.specs.Clocks.{stamp_of};
ghost use Rattle.clock_words.specs.Places.{IsShape, area_place as place_of_area, clock_place as place_of_clock, word_count};
ghost use Rattle.clock_words.specs.Rule.{IsRaise};
ghost use Rattle.clock_words.specs.Seats.{IsAtTable, IsSamePlace};
ghost use Rattle.clock_words.specs.Steps.{HasAsked, HasLooked};
ghost use Rattle.clock_words.specs.Stories.{AreWithin, due, list_of, stamped_word, words_of};
ghost use Rattle.clock_words.specs.Views.{after_fetch, after_put, after_raise, with_stop};

use crate::rule::{Ask, BoardRule, Call, Fetch, Look, Put, Raise, Setup};
use crate::story::Story;
use crate::view::{Shape, View};
use atomic_table::{Seat, Shared};

/// The words of a board, as its seats see them.
pub(crate) type Words<S> = Shared<(), View, Setup<S>, BoardRule<S>>;

/// A seat of the table, with its view.
pub(crate) type Place = Seat<(), View>;

/// The place of a slot's clock word.
fn clock_place(slot: u32) -> usize
    ensures { result ≡ place_of_clock slot }
{
    8 * slot as usize + 8
}

/// The place of a word of a slot's area.
#[tactic(auto, using(crate::proofs::Apart::area_fits))]
fn area_place(shape: Shape, slot: u32, k: u32) -> usize
    requires sizes { IsShape shape.slots shape.area }
    requires slot { slot < shape.slots }
    requires k { k < shape.area }
    ensures { result ≡ place_of_area shape slot k }
{
    8 * shape.slots as usize + 8 + (slot as usize * shape.area as usize + k as usize)
}

/// Loads the clock word of a slot.
pub(crate) fn load_clock<S: Story>(words: &Words<S>, place: &mut Place, slot: u32) -> u64
    requires seat { IsAtTable (S.lists words.now.key.story.value) words.now.key.shape
        words.now.table_id place.old }
    requires slot { slot < words.now.key.shape.slots }
    ensures seat { IsSamePlace place.old place.new }
    ensures found { HasLooked slot place.old.me result place.new.me }
{
    words.load::<Look>(place, clock_place(slot))
}

/// Loads the clock word of a slot with no seat, which tells nothing of it.
pub(crate) fn peek_clock<S: Story>(words: &Words<S>, slot: u32) -> u64
    requires size { words.now.table_id.words ≡ word_count words.now.key.shape }
    requires slot { slot < words.now.key.shape.slots }
{
    words.peek(clock_place(slot))
}

/// Loads words of a slot that are due below the clock seen.
#[tactic(auto, using(crate::proofs::DueWords::due_within))]
pub(crate) fn load_words<S: Story>(
    words: &Words<S>,
    place: &mut Place,
    shape: Shape,
    slot: u32,
    from: u32,
    out: &mut [u64],
)
    requires seat { IsAtTable (S.lists words.now.key.story.value) words.now.key.shape
        words.now.table_id place.old }
    requires within { AreWithin shape.area (S.lists words.now.key.story.value) }
    requires shape { words.now.key.shape ≡ shape }
    requires sizes { IsShape shape.slots shape.area }
    requires slot { slot < shape.slots }
    requires are_due { from + length out.old ≤
        due (list_of (S.lists words.now.key.story.value) slot)
        (stamp_of (slice_index place.old.me.0.seen slot)) }
    ensures seat { IsSamePlace place.old place.new }
    ensures view { place.new.me ≡
        (after_fetch slot (length out.old) place.old.me.0, place.old.me.1) }
    ensures words { out.new ≡ take (length out.old)
        (drop from (words_of (list_of (S.lists words.now.key.story.value) slot))) }
{
    for i in 0..out.len() {
        out[i] = words.load::<Fetch>(place, area_place(shape, slot, from + i as u32));
    }
}

/// Stores the next own words, each of which has the own clock as its stamp.
pub(crate) fn store_words<S: Story>(
    words: &Words<S>,
    place: &mut Place,
    shape: Shape,
    slot: u32,
    written: u32,
    next: &[u64],
)
    requires seat { IsAtTable (S.lists words.now.key.story.value) words.now.key.shape
        words.now.table_id place.old }
    requires within { AreWithin shape.area (S.lists words.now.key.story.value) }
    requires shape { words.now.key.shape ≡ shape }
    requires sizes { IsShape shape.slots shape.area }
    requires slot { (slot ≡ place.old.me.0.slot) × (slot < shape.slots) }
    requires written { written ≡ place.old.me.0.written }
    requires next { take (length next.now)
        (drop written (list_of (S.lists words.now.key.story.value) slot)) ≡
        map (stamped_word (stamp_of place.old.me.0.own)) next.now }
    ensures seat { IsSamePlace place.old place.new }
    ensures view { place.new.me ≡ (after_put (length next.now) place.old.me.0, place.old.me.1) }
{
    for i in 0..next.len() {
        words.store::<Put>(place, area_place(shape, slot, written + i as u32), next[i]);
    }
}

/// Raises the own clock word.
pub(crate) fn raise_clock<S: Story>(words: &Words<S>, place: &mut Place, slot: u32, word: u64)
    requires seat { IsAtTable (S.lists words.now.key.story.value) words.now.key.shape
        words.now.table_id place.old }
    requires within { AreWithin words.now.key.shape.area (S.lists words.now.key.story.value) }
    requires slot { (slot ≡ place.old.me.0.slot) × (slot < words.now.key.shape.slots) }
    requires word { IsRaise (list_of (S.lists words.now.key.story.value) slot) place.old.me.0 word }
    ensures seat { IsSamePlace place.old place.new }
    ensures view { place.new.me ≡ (after_raise word place.old.me.0, place.old.me.1) }
{
    words.fetch_max::<Raise>(place, clock_place(slot), word);
}

/// Raises the stop word.
pub(crate) fn raise_stop<S: Story>(words: &Words<S>, place: &mut Place)
    requires seat { IsAtTable (S.lists words.now.key.story.value) words.now.key.shape
        words.now.table_id place.old }
    requires within { AreWithin words.now.key.shape.area (S.lists words.now.key.story.value) }
    ensures seat { IsSamePlace place.old place.new }
    ensures view { place.new.me ≡ (with_stop true place.old.me.0, place.old.me.1) }
{
    words.fetch_max::<Call>(place, 0, 1);
}

/// Loads the stop word, and says whether it is above 0.
pub(crate) fn load_stop<S: Story>(words: &Words<S>, place: &mut Place) -> bool
    requires seat { IsAtTable (S.lists words.now.key.story.value) words.now.key.shape
        words.now.table_id place.old }
    ensures seat { IsSamePlace place.old place.new }
    ensures view { place.new.me ≡ (with_stop result place.old.me.0, place.old.me.1) }
    ensures stays { place.old.me.0.stop ≡ true → result ≡ true }
{
    words.load::<Ask>(place, 0) > 0
}
