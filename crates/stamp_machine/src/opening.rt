ghost use Rattle.std.specs.Prelude.{◌≡◌, ◌≤◌, ◌<◌, ◌+◌, ◌-◌, ◌^◌, ◌∷◌, ◌++◌, [], true, IfOk, Some};
ghost use Rattle.work_stamp.specs.Taskers.{HaveWords};
ghost use Rattle.work_stamp.specs.declared.entry.Entry.TheVariants.{Halt};
ghost use Rattle.stamp_machine.specs.Kept.{IsFittingWhileLive};
ghost use Rattle.stamp_machine.specs.Limits.{AreLimits};
ghost use Rattle.stamp_machine.specs.Machine.{slot_after_idle, slot_after_join, word_count};
ghost use Rattle.stamp_machine.specs.Merges.{reads as reads_of};
ghost use Rattle.stamp_machine.specs.Openings.{CanRunAfter, HavePendingWords, opening_of_take, pending_opening as pending_opening_of, task_opening as task_opening_of};
ghost use Rattle.stamp_machine.specs.Plays.{CanWork, words_with as words_with_of};
ghost use Rattle.stamp_machine.specs.Slots.{slot_after_end};
ghost use Rattle.stamp_machine.specs.declared.opening.Opening.TheVariants.{Done, Goes};

use crate::{Limits, Live, Slot};
use ip_core::{List, OutOfMemory, Record};
use std::alloc::Global;
use work_stamp::{Begin, Entry, Tasker};

/// A move of a slot: the entries that join the history under the move's key, and the slot afterwards.
#[derive(Debug, Drop)]
pub struct Turn<L> {
    pub entries: List<Entry>,
    pub slot: Slot<L>,
}

/// A part of a move, up to what the slot does next.
#[derive(Debug, Drop)]
pub enum Opening<L> {
    /// These entries join, and the move is done.
    Done(Turn<L>),
    /// These entries join, and the slot goes on with this local. Here the slot itself is not live.
    Goes { turn: Turn<L>, local: L },
}

/// Whether a slot's move reads the history: it lives and is between tasks, and no limit ends it.
pub fn reads_history<T: Tasker>(tasker: &T, limits: &Limits, slot: &Slot<T::Local>) -> bool
    requires ranges { AreLimits limits.now }
    requires fits { IsFittingWhileLive (T.fits_local tasker.now) slot.now.live }
    requires store { slot.now.words ≤ limits.now.store - 4 }
    ensures { result ≡ reads_of (T.rules tasker.now) limits.now slot.now }
{
    let Some(live) = &slot.live else {
        return false;
    };
    if limits.work <= slot.clock {
        return false;
    }
    if words_with(limits, slot.words, live.pending.as_slice()).is_none() {
        return false;
    }
    tasker.at_start(&live.local)
}

/// The first part of a slot's move, which sees no history: what is pending joins, and the slot goes on. At the limit on
/// work the slot is over. Where what is pending doesn't fit, a Halt joins and the slot is over.
pub fn pending_opening<L: Drop>(
    alloc: Global,
    limits: &Limits,
    slot: Slot<L>,
) -> Result<Opening<L>, OutOfMemory>
    requires ranges { AreLimits limits.now }
    requires words { HavePendingWords slot.live }
    requires store { slot.words ≤ limits.now.store - 4 }
    ensures { IfOk result (λ opening. opening ≡ pending_opening_of limits.now slot) }
{
    let Slot {
        clock,
        words,
        records,
        live,
    } = slot;
    let over = Slot {
        clock,
        words,
        records,
        live: None,
    };
    let Some(live) = live else {
        return Ok(Opening::Done(Turn {
            entries: List::new(alloc),
            slot: over,
        }));
    };
    if limits.work <= clock {
        return Ok(Opening::Done(Turn {
            entries: List::new(alloc),
            slot: over,
        }));
    }
    match words_with(limits, words, live.pending.as_slice()) {
        None => halt_opening(alloc, over),
        Some(words) => joined_opening(over, words, live),
    }
}

/// What a slot between tasks does on a view, up to the chunk of a task that it takes: the task's entries join where
/// they fit, and else a Halt joins and the slot is over. Or the slot waits, which counts as work of 1,000. Or it is
/// over.
pub fn task_opening<T: Tasker>(
    alloc: Global,
    tasker: &T,
    limits: &Limits,
    view: &T::View,
    slot: Slot<T::Local>,
    local: T::Local,
) -> Result<Opening<T::Local>, OutOfMemory>
    requires ranges { AreLimits limits.now }
    requires view { T.fits_view tasker.now view.now }
    requires can { CanWork (T.fits_local tasker.now) limits.now slot local }
    requires starts { (T.rules tasker.now).at_start local ≡ true }
    ensures opening { IfOk result (λ opening.
        opening ≡ task_opening_of (T.rules tasker.now) limits.now view.now slot local) }
    ensures runs { IfOk result (λ opening.
        CanRunAfter (T.rules tasker.now) (T.fits_local tasker.now) opening) }
{
    let mut local = local;
    match tasker.begin(alloc, view, &mut local)? {
        Begin::End => Ok(Opening::Done(Turn {
            entries: List::new(alloc),
            slot: slot_over(slot),
        })),
        Begin::Idle => Ok(Opening::Done(Turn {
            entries: List::new(alloc),
            slot: slot_waiting(alloc, slot, local),
        })),
        Begin::Take(entries) => taken_opening(alloc, limits, slot, local, entries),
    }
}

/// A task's entries join where they fit. Else a Halt joins, and the slot is over.
fn taken_opening<L: Drop>(
    alloc: Global,
    limits: &Limits,
    slot: Slot<L>,
    local: L,
    entries: List<Entry>,
) -> Result<Opening<L>, OutOfMemory>
    requires ranges { AreLimits limits.now }
    requires words { HaveWords entries }
    requires store { slot.words ≤ limits.now.store - 4 }
    ensures { IfOk result (λ opening. opening ≡ opening_of_take limits.now slot local entries) }
{
    let Some(words) = words_with(limits, slot.words, entries.as_slice()) else {
        return halt_opening(alloc, slot_over(slot));
    };
    let slot = Slot {
        clock: slot.clock,
        words,
        records: slot.records,
        live: None,
    };
    Ok(Opening::Goes {
        turn: Turn { entries, slot },
        local,
    })
}

/// What was pending joins, and its records join those of the slot.
fn joined_opening<L: Drop>(
    over: Slot<L>,
    words: u64,
    live: Live<L>,
) -> Result<Opening<L>, OutOfMemory>
    requires { words ≡ over.words + word_count live.pending }
    ensures { IfOk result (λ opening. opening ≡ Goes (record {
      entries = live.pending;
      slot = slot_after_end (slot_after_join over live);
    }) live.local) }
{
    let Live {
        local,
        pending,
        leaves,
    } = live;
    let slot = Slot {
        clock: over.clock,
        words,
        records: with_records(over.records, leaves)?,
        live: None,
    };
    Ok(Opening::Goes {
        turn: Turn {
            entries: pending,
            slot,
        },
        local,
    })
}

/// Records with others behind them.
fn with_records(records: List<Record>, leaves: List<Record>) -> Result<List<Record>, OutOfMemory>
    ensures { IfOk result (λ all. all ≡ records ++ leaves) }
{
    let mut records = records;
    for leaf in leaves.into_vec() {
        records.push(leaf)?;
    }
    Ok(records)
}

/// A Halt joins, and the slot is over.
fn halt_opening<L: Drop>(alloc: Global, over: Slot<L>) -> Result<Opening<L>, OutOfMemory>
    ensures { IfOk result (λ opening. opening ≡ Done (record { entries = Halt ∷ []; slot = over })) }
{
    let mut entries = List::new(alloc);
    entries.push(Entry::Halt)?;
    Ok(Opening::Done(Turn {
        entries,
        slot: over,
    }))
}

/// The slot is over, and what is pending is dropped.
fn slot_over<L: Drop>(slot: Slot<L>) -> Slot<L>
    ensures { result ≡ slot_after_end slot }
{
    Slot {
        clock: slot.clock,
        words: slot.words,
        records: slot.records,
        live: None,
    }
}

/// The slot waits, which counts as work of 1,000.
fn slot_waiting<L: Drop>(alloc: Global, slot: Slot<L>, local: L) -> Slot<L>
    requires { slot.clock < 10 ^ 12 }
    ensures { result ≡ slot_after_idle slot local }
{
    Slot {
        clock: slot.clock + 1_000,
        words: slot.words,
        records: slot.records,
        live: Some(Live {
            local,
            pending: List::new(alloc),
            leaves: List::new(alloc),
        }),
    }
}

/// A slot's count of words with these entries, none where they don't fit into its store. Four words stay free.
fn words_with(limits: &Limits, words: u64, entries: &[Entry]) -> Option<u64>
    requires words { words ≤ limits.now.store - 4 }
    requires ranges { AreLimits limits.now }
    requires writable { HaveWords entries.now }
    ensures { result ≡ words_with_of limits.now words entries.now }
{
    let most = u64::from(limits.store) - 4;
    let mut total = words;
    for entry in entries {
        total += entry.word_count();
        if most < total {
            return None;
        }
    }
    Some(total)
}
