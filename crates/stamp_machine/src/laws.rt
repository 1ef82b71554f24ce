ghost use Rattle.stamp_machine.specs.Endings.{EndsHaveCauses, HaltsHaveCauses, HasNoOwnHalt};
ghost use Rattle.stamp_machine.specs.Laws.{HasLesserKeysBefore, HaveKnownEnds, HaveFronts, IsLawfulAfter, HaveFittingLocals, HaveKnownLogs, AreChosen, ArePlayed, HasRisingClocks, HasRisingKeys, HasLastMove};
ghost use Rattle.stamp_machine.specs.Limits.{AreLimits};
ghost use Rattle.stamp_machine.specs.Machine.{final};
ghost use Rattle.stamp_machine.specs.Merges.{HasLeastFirst, AreSame, HasSides, AreUnread};
ghost use Rattle.stamp_machine.specs.Openings.{HaveParts};
ghost use Rattle.stamp_machine.specs.Orders.{IsSorted};
ghost use Rattle.stamp_machine.specs.Ranges.{AreTurnsOfMachine, EntriesHaveWords, FitStores, HaveLowClocks, OverSlotsAreLast, OwnMovesKeep};
ghost use Rattle.stamp_machine.specs.Records.{EntriesHaveOrigins, RecordsHaveChunks};
ghost use Rattle.stamp_machine.specs.Runs.{of_slot};
ghost use Rattle.ip_core.specs.Seq.{Seq};
ghost use Rattle.std.specs.Prelude.{◌∷◌, ℕ};
ghost use Rattle.work_stamp.specs.declared.key.Key.{Key};
ghost use Rattle.work_stamp.specs.declared.stamped.KeyedEntry.{KeyedEntry};

use crate::Limits;
use work_stamp::Tasker;

/// A law of the machine, with nothing to run: after any number of moves history and slots agree, views and locals fit,
/// each entry may follow those before it, and there are fewer than 2^31 entries, none of a slot past the last.
pub fn moves_keep_the_laws<T: Tasker>(tasker: &T, limits: &Limits)
    requires { AreLimits limits.now }
    ensures { (n : ℕ) → IsLawfulAfter (T.rules tasker.now) (T.fits_view tasker.now)
        (T.fits_local tasker.now) (T.may_follow tasker.now) (T.agrees tasker.now) limits.now n }
{}

/// A law of the machine, with nothing to run: the slot that moves has a greater clock afterwards, or is over.
pub fn clocks_rise<T: Tasker>(tasker: &T, limits: &Limits)
    requires { AreLimits limits.now }
    ensures { HasRisingClocks (T.rules tasker.now) limits.now }
{}

/// A law of the machine, with nothing to run: the key of a move is below that of the next one.
pub fn keys_rise<T: Tasker>(tasker: &T, limits: &Limits)
    requires { AreLimits limits.now }
    ensures { HasRisingKeys (T.rules tasker.now) limits.now }
{}

/// A law of the machine, with nothing to run: a slot makes at most work + 1 moves. After as many moves for each slot no
/// slot lives, and nothing happens any more.
pub fn machine_stops<T: Tasker>(tasker: &T, limits: &Limits)
    requires { AreLimits limits.now }
    ensures { HasLastMove (T.rules tasker.now) limits.now }
{}

/// A law of the machine, with nothing to run: no later entry of the history has a lesser key, and so none of a slot's entries
/// has one.
pub fn history_is_sorted<T: Tasker>(tasker: &T, limits: &Limits)
    requires { AreLimits limits.now }
    ensures all { IsSorted (final (T.rules tasker.now) limits.now).entries }
    ensures each { (number : ℕ) →
        IsSorted (of_slot number (final (T.rules tasker.now) limits.now).entries) }
{}

/// A law of the machine, with nothing to run: when a slot is chosen, what stands below its key in the history is the
/// history so far.
pub fn lesser_keys_are_before<T: Tasker>(tasker: &T, limits: &Limits)
    requires { AreLimits limits.now }
    ensures { HasLesserKeysBefore (T.rules tasker.now) limits.now }
{}

/// A law of the machine, with nothing to run: each slot is at any time what its own moves make of it, if at each of
/// them it sees what stands below its key in the history.
pub fn slots_play_by_the_history<T: Tasker>(tasker: &T, limits: &Limits)
    requires { AreLimits limits.now }
    ensures { ArePlayed (T.rules tasker.now) limits.now }
{}

/// A law of the machine, with nothing to run: each live slot, by its own moves, is chosen at some move.
pub fn live_slots_are_chosen<T: Tasker>(tasker: &T, limits: &Limits)
    requires { AreLimits limits.now }
    ensures { AreChosen (T.rules tasker.now) limits.now }
{}

/// A law of the machine, with nothing to run: the local of each live slot, by its own moves, fits.
pub fn live_locals_fit<T: Tasker>(tasker: &T, limits: &Limits)
    requires { AreLimits limits.now }
    ensures { HaveFittingLocals (T.rules tasker.now) (T.fits_local tasker.now) limits.now }
{}

/// A law of the machine, with nothing to run: a live slot whose clock is at least a stamp never again publishes below
/// it. Its entries begin with what it has published so far.
pub fn logs_are_known<T: Tasker>(tasker: &T, limits: &Limits)
    requires { AreLimits limits.now }
    ensures { HaveKnownLogs (T.rules tasker.now) limits.now }
{}

/// A law of the machine, with nothing to run: a slot that is over has published all that it ever will.
pub fn ends_are_known<T: Tasker>(tasker: &T, limits: &Limits)
    requires { AreLimits limits.now }
    ensures { HaveKnownEnds (T.rules tasker.now) limits.now }
{}

/// A law of the machine, with nothing to run: the history begins with what stands below a live slot's key, and then
/// come the entries of that slot's move.
pub fn moves_are_in_front<T: Tasker>(tasker: &T, limits: &Limits)
    requires { AreLimits limits.now }
    ensures { HaveFronts (T.rules tasker.now) limits.now }
{}

/// A law of the machine, with nothing to run: a move that a limit ends, or whose task has begun, is the same on every
/// view.
pub fn running_tasks_read_nothing<T: Tasker>(tasker: &T, limits: &Limits)
    ensures { AreUnread (T.rules tasker.now) limits.now }
{}

/// A law of the machine, with nothing to run: a move is what its parts come to, which are what joins, what a slot
/// begins with on a view, and its chunk. A slot that goes on once what was pending has joined reads the history where
/// it is between tasks.
pub fn turns_have_parts<T: Tasker>(tasker: &T, limits: &Limits)
    ensures { HaveParts (T.rules tasker.now) limits.now }
{}

/// A law of the machine, with nothing to run: where no task gives a Halt, each Halt of the history is that of a slot
/// whose clock was below the limit on work, and which had more words to publish than its store takes.
pub fn halts_have_causes<T: Tasker>(tasker: &T, limits: &Limits)
    requires { HasNoOwnHalt (T.rules tasker.now) }
    ensures { HaltsHaveCauses (T.rules tasker.now) limits.now }
{}

/// A law of the machine, with nothing to run: where no task gives a Halt, each slot is over because its clock came to
/// the limit on work, because of a Halt of its own, or because nothing was left to do.
pub fn ends_have_causes<T: Tasker>(tasker: &T, limits: &Limits)
    requires ranges { AreLimits limits.now }
    requires no_halt { HasNoOwnHalt (T.rules tasker.now) }
    ensures { EndsHaveCauses (T.rules tasker.now) limits.now }
{}

/// A law of the machine, with nothing to run: each record of a slot is one of a chunk that the slot ran. Then a front
/// of the history and the slots agreed, and the slot stood at a local that had begun a task, with nothing pending. All
/// entries of that chunk are in the history, so what a slot drops leaves no record.
pub fn records_have_chunks<T: Tasker>(tasker: &T, limits: &Limits)
    requires { AreLimits limits.now }
    ensures { RecordsHaveChunks (T.rules tasker.now) (T.fits_local tasker.now)
        (T.agrees tasker.now) limits.now }
{}

/// A law of the machine, with nothing to run: each entry of the history is a Halt, or one of a task that the slot took
/// on the view of the history before it, or one of a chunk that the slot ran. All records of that chunk are among the
/// slot's.
pub fn entries_have_origins<T: Tasker>(tasker: &T, limits: &Limits)
    requires { AreLimits limits.now }
    ensures { EntriesHaveOrigins (T.rules tasker.now) (T.fits_local tasker.now)
        (T.agrees tasker.now) limits.now }
{}

/// A law of the machine, with nothing to run: each entry of the history has words from which it is read again.
pub fn entries_have_words<T: Tasker>(tasker: &T, limits: &Limits)
    requires { AreLimits limits.now }
    ensures { EntriesHaveWords (T.rules tasker.now) limits.now }
{}

/// A law of the machine, with nothing to run: no clock of a slot, by its own moves, passes the limit on work by more than
/// the work of a chunk, 2^40 at most. Nor does the stamp of an entry.
pub fn clocks_are_low<T: Tasker>(tasker: &T, limits: &Limits)
    requires { AreLimits limits.now }
    ensures { HaveLowClocks (T.rules tasker.now) limits.now }
{}

/// A law of the machine, with nothing to run: the entries of each slot have fewer words than its store takes, a Halt at
/// its end included. So the history has fewer words than all stores take, and of entries at most a third of its words.
pub fn entries_fit_stores<T: Tasker>(tasker: &T, limits: &Limits)
    requires { AreLimits limits.now }
    ensures { FitStores (T.rules tasker.now) limits.now }
{}

/// A law of the machine, with nothing to run: where a slot, by its own moves, is over, it is that slot of the machine's
/// last state.
pub fn over_slots_are_last<T: Tasker>(tasker: &T, limits: &Limits)
    requires { AreLimits limits.now }
    ensures { OverSlotsAreLast (T.rules tasker.now) limits.now }
{}

/// A law of the machine, with nothing to run: the move of the slot that is chosen is the one that it makes on what
/// stands below its key in the history.
pub fn machine_turns_are_by_the_history<T: Tasker>(tasker: &T, limits: &Limits)
    requires { AreLimits limits.now }
    ensures { AreTurnsOfMachine (T.rules tasker.now) limits.now }
{}

/// A law of the machine, with nothing to run: a live slot's own move, on what stands below its key in the history,
/// keeps what each move of the machine keeps. Its entries may follow, have words and stay within the store, its local
/// fits afterwards, and its clock rises or it is over.
pub fn own_moves_keep_the_laws<T: Tasker>(tasker: &T, limits: &Limits)
    requires { AreLimits limits.now }
    ensures { OwnMovesKeep (T.rules tasker.now) (T.fits_view tasker.now) (T.fits_local tasker.now)
        (T.may_follow tasker.now) (T.agrees tasker.now) limits.now }
{}

/// A law of histories, with nothing to run: of a slot, what lies below a key is what it has published up to the key's
/// stamp where its number is smaller than that of the key's slot, and else below that stamp.
pub fn keys_part_by_slots()
    ensures { (history : Seq KeyedEntry) (key : Key) (number : ℕ) → HasSides history key number }
{}

/// A law of histories, with nothing to run: in one that is sorted the first entry has the least key of all slots' first
/// ones.
pub fn least_key_is_first()
    ensures { (entry : KeyedEntry) (rest : Seq KeyedEntry) → IsSorted (entry ∷ rest) →
        HasLeastFirst entry rest }
{}

/// A law of histories, with nothing to run: two that are sorted and have the same entries of each slot are the same.
pub fn sorted_histories_are_same()
    ensures { AreSame }
{}
