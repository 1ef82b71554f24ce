ghost use Rattle.std.specs.Prelude.{◌≡◌, ◌<◌, Some, IfOk};
ghost use Rattle.stamp_machine.specs.Limits.{AreLimits};
ghost use Rattle.stamp_machine.specs.Machine.{first, history as history_of};
ghost use Rattle.stamp_machine.specs.Plays.{PlaysMachine, history_of_play, moves_left_all, play_of};
ghost use Rattle.stamp_machine.specs.Slots.{next_slot as next_slot_of};

use crate::next::next_slot;
use crate::play::{HistoryView, Play};
use crate::turn::turn;
use crate::{History, Limits, Live, Slot};
use ip_core::{List, OutOfMemory};
use std::alloc::Global;
use work_stamp::Tasker;

/// Lets the slots work on one thread until none lives, and gives what they leave. While a slot lives, the live slot of the
/// least clock moves, and of equal clocks the one of the least number.
pub fn run_alone<T: Tasker>(
    alloc: Global,
    tasker: &T,
    limits: &Limits,
) -> Result<History, OutOfMemory>
    requires { AreLimits limits.now }
    ensures { IfOk result (λ history. history ≡ history_of (T.rules tasker.now) limits.now) }
{
    let mut play = start(alloc, tasker, limits)?;
    while let Some(number) = next_slot(play.slots.as_slice()) {
        play = play_after_move(alloc, tasker, limits, play, number)?;
    }
    leave(alloc, play)
}

/// The empty history, and fresh slots.
fn start<T: Tasker>(
    alloc: Global,
    tasker: &T,
    limits: &Limits,
) -> Result<Play<T::View, T::Local>, OutOfMemory>
    requires { AreLimits limits.now }
    ensures { IfOk result (λ play. play ≡
        play_of (T.rules tasker.now) (first (T.rules tasker.now) limits.now)) }
{
    let view = tasker.fresh_view(alloc)?;
    let mut slots = List::new(alloc);
    for number in 0..limits.slots {
        let local = tasker.fresh_local(alloc, number)?;
        slots.push(Slot {
            clock: 0,
            words: 0,
            records: List::new(alloc),
            live: Some(Live {
                local,
                pending: List::new(alloc),
                leaves: List::new(alloc),
            }),
        })?;
    }
    let so_far = HistoryView {
        entries: List::new(alloc),
        view,
    };
    Ok(Play { so_far, slots })
}

/// One move of the machine, by the slot whose turn it is.
fn play_after_move<T: Tasker>(
    alloc: Global,
    tasker: &T,
    limits: &Limits,
    play: Play<T::View, T::Local>,
    number: usize,
) -> Result<Play<T::View, T::Local>, OutOfMemory>
    requires ranges { AreLimits limits.now }
    requires plays { PlaysMachine (T.rules tasker.now) limits.now play }
    requires next { next_slot_of play.slots ≡ Some number }
    ensures plays { IfOk result (λ after. PlaysMachine (T.rules tasker.now) limits.now after) }
    ensures fewer { IfOk result (λ after.
        moves_left_all limits.now after.slots < moves_left_all limits.now play.slots) }
{
    let Play { so_far, slots } = play;
    let mut slots = slots.into_vec();
    let slot = slots.remove(number);
    let after = turn(alloc, tasker, limits, number as u32, so_far, slot)?;
    slots.insert(number, after.slot)?;
    Ok(Play {
        so_far: after.so_far,
        slots: List::of(slots),
    })
}

/// What the slots leave.
fn leave<V: Drop, L: Drop>(alloc: Global, play: Play<V, L>) -> Result<History, OutOfMemory>
    ensures { IfOk result (λ history. history ≡ history_of_play play) }
{
    let Play { so_far, slots } = play;
    let mut records = List::new(alloc);
    let mut ends = List::new(alloc);
    for slot in slots.into_vec() {
        ends.push(slot.clock)?;
        records.push(slot.records)?;
    }
    Ok(History {
        entries: so_far.entries,
        records,
        ends,
    })
}
