//! Seats of a new board, and what is joined when a seat ends.
ghost use Rattle.std.specs.Prelude.{◌≡◌, ◌<◌, [], length, replicate, IfOk};
ghost use Rattle.clock_words.specs.Places.{IsShape, word_count as count_of};
ghost use Rattle.clock_words.specs.Seats.{new_seats};
ghost use Rattle.clock_words.specs.Views.{greater_of, maker as first_view};

use crate::rule::HandOut;
use crate::seat::BoardSeat;
use crate::steps::{Place, Words};
use crate::story::Story;
use crate::view::Shape;
use ip_core::{List, OutOfMemory};
use std::alloc::Global;

/// So many zeros.
fn zeros(alloc: Global, count: usize) -> Result<Vec<u64>, OutOfMemory>
    ensures { IfOk result (λ made. made.items ≡ replicate count 0) }
{
    Ok(vec![in alloc; 0; count]?)
}

/// As many zeros as a board of this shape has words.
#[tactic(auto, using(crate::proofs::Apart::area_fits))]
pub(crate) fn zero_words(alloc: Global, shape: Shape) -> Result<Vec<u64>, OutOfMemory>
    requires { IsShape shape.slots shape.area }
    ensures { IfOk result (λ words. words.items ≡ replicate (count_of shape) 0) }
{
    let slots = shape.slots as usize;
    zeros(alloc, 8 * slots + 8 + slots * shape.area as usize)
}

/// The seats of all slots, in their order.
pub(crate) fn hand_out<S: Story>(
    alloc: Global,
    words: &Words<S>,
    mut maker: Place,
    slots: u32,
) -> Result<List<BoardSeat>, OutOfMemory>
    requires shape { words.now.key.shape.slots ≡ slots }
    requires size { words.now.table_id.words ≡ count_of words.now.key.shape }
    requires table { maker.table_id ≡ words.now.table_id }
    requires view { maker.me ≡
        (first_view (S.lists words.now.key.story.value) words.now.key.shape, []) }
    ensures { IfOk result (λ seats. seats ≡ new_seats (record {
      table = words.now.table_id;
      shape = words.now.key.shape;
      story = S.lists words.now.key.story.value;
    }) slots) }
{
    let mut seats = List::new(alloc);
    for slot in 0..slots {
        let seen = zeros(alloc, slots as usize)?;
        let place = words.split_seat::<HandOut>(&mut maker);
        seats.push(BoardSeat {
            slot,
            own: 0,
            written: 0,
            seen,
            place,
        })?;
    }
    Ok(seats)
}

/// Of each place the greater of two clock words.
pub(crate) fn keep_greater(seen: &mut Vec<u64>, other: &[u64])
    requires { length other.now ≡ length seen.old.items }
    ensures { seen.new.items ≡ greater_of seen.old.items other.now }
{
    for slot in 0..other.len() {
        seen[slot] = seen[slot].max(other[slot]);
    }
}
