//! Carriers of a run that one thread drives, and the history that they leave.
ghost use Rattle.std.specs.Prelude.{◌≡◌, ◌<◌, IfOk, IfSome};
ghost use Rattle.std.specs.List.{list_all};
ghost use Rattle.carrier_tests.specs.Driven.{AreCarriers, IsRunBoard};
ghost use Rattle.clock_words.specs.Seats.{new_seats};
ghost use Rattle.stamp_machine.specs.Limits.{AreLimits};
ghost use Rattle.stamp_machine.specs.Machine.{history as history_of};
ghost use Rattle.version_store.specs.Advances.{has_ended};
ghost use Rattle.version_store.specs.Gathers.{AreEnded};

use crate::order::{Order, Turn};
use clock_words::{Board, BoardSeat};
use ip_core::{List, OutOfMemory};
use stamp_machine::{History, Limits, entries_fit_stores};
use std::alloc::Global;
use version_store::{Advance, Carrier, RunStory, gather};
use work_stamp::Tasker;

/// How many turns a run may take in all.
const MOST_TURNS: u32 = 4_000_000;

/// The board of a run, and its seats.
fn run_board<'a, T: Tasker>(
    alloc: Global,
    tasker: &'a T,
    limits: &Limits,
) -> Result<(Board<RunStory<'a, T>>, List<BoardSeat>), OutOfMemory>
    requires { AreLimits limits.now }
    ensures board { IfOk result (λ made. IsRunBoard (T.rules tasker.now) limits.now made.0) }
    ensures seats { IfOk result (λ made. made.1 ≡ new_seats made.0 limits.now.slots) }
{
    entries_fit_stores(tasker, limits);
    let story = RunStory::of(tasker, *limits);
    Board::new(alloc, story, limits.slots, limits.store)
}

/// A carrier for each seat, in the order of their slots.
fn new_carriers<T: Tasker>(
    alloc: Global,
    board: &Board<RunStory<'_, T>>,
    tasker: &T,
    limits: &Limits,
    seats: List<BoardSeat>,
) -> Result<Vec<Carrier<T>>, OutOfMemory>
    requires board { IsRunBoard (T.rules tasker.now) limits.now board.now }
    requires seats { seats ≡ new_seats board.now limits.now.slots }
    ensures { IfOk result (λ carriers.
        AreCarriers board.now tasker.now limits.now carriers.items) }
{
    let _ = board;
    let mut carriers = Vec::new(alloc);
    for seat in seats.into_vec() {
        carriers.push(Carrier::new(alloc, tasker, limits, seat)?)?;
    }
    Ok(carriers)
}

/// Gives a slot a turn. None where it was over.
fn advance_slot<T: Tasker>(
    alloc: Global,
    board: &Board<RunStory<'_, T>>,
    tasker: &T,
    limits: &Limits,
    carriers: &mut Vec<Carrier<T>>,
    slot: u32,
) -> Result<Option<Advance>, OutOfMemory>
    requires board { IsRunBoard (T.rules tasker.now) limits.now board.now }
    requires carriers { AreCarriers board.now tasker.now limits.now carriers.old.items }
    requires slot { slot < limits.now.slots }
    ensures { AreCarriers board.now tasker.now limits.now carriers.new.items }
{
    let carrier = &mut carriers[slot as usize];
    if !carrier.lives() {
        return Ok(None);
    }
    Ok(Some(carrier.advance(alloc, board, tasker, limits)?))
}

/// Whether all carriers are at their slots' ends.
fn all_ended<T: Tasker>(carriers: &[Carrier<T>]) -> bool
    ensures { result ≡ list_all (λ carrier. has_ended carrier) carriers.now }
{
    for carrier in carriers {
        if !carrier.is_ended() {
            return false;
        }
    }
    true
}

/// Gives turns by an order until all slots are over. None where they aren't after so many turns.
fn drive<T: Tasker>(
    alloc: Global,
    board: &Board<RunStory<'_, T>>,
    tasker: &T,
    limits: &Limits,
    mut carriers: Vec<Carrier<T>>,
    order: Order,
) -> Result<Option<Vec<Carrier<T>>>, OutOfMemory>
    requires board { IsRunBoard (T.rules tasker.now) limits.now board.now }
    requires carriers { AreCarriers board.now tasker.now limits.now carriers.items }
    ensures { IfOk result (λ ended. IfSome ended (λ over.
        AreEnded board.now tasker.now limits.now over.items)) }
{
    let mut turn = Turn::first(order);
    for _ in 0..MOST_TURNS {
        if all_ended(&carriers) {
            return Ok(Some(carriers));
        }
        let slot = turn.slot(limits.slots);
        let outcome = advance_slot(alloc, board, tasker, limits, &mut carriers, slot)?;
        turn = turn.after(outcome);
    }
    Ok(None)
}

/// The history that the carriers of a run leave, driven by an order. None where they don't end.
pub(crate) fn driven_history<T: Tasker>(
    alloc: Global,
    tasker: &T,
    limits: &Limits,
    order: Order,
) -> Result<Option<History>, OutOfMemory>
    requires { AreLimits limits.now }
    ensures { IfOk result (λ driven. IfSome driven (λ history.
        history ≡ history_of (T.rules tasker.now) limits.now)) }
{
    let (board, seats) = run_board(alloc, tasker, limits)?;
    let carriers = new_carriers(alloc, &board, tasker, limits, seats)?;
    let Some(carriers) = drive(alloc, &board, tasker, limits, carriers, order)? else {
        return Ok(None);
    };
    Ok(Some(gather(alloc, &board, List::of(carriers))?))
}

/// What became of a slot's turn, None where it was over, and its clock after it.
#[derive(Clone, Copy, Debug, PartialEq, Eq)]
pub(crate) struct Outcome {
    pub advance: Option<Advance>,
    pub clock: u64,
}

/// What became of the turns of these slots, one after the other. A slot that the run doesn't have gets no turn.
fn listed_turns<T: Tasker>(
    alloc: Global,
    board: &Board<RunStory<'_, T>>,
    tasker: &T,
    limits: &Limits,
    carriers: &mut Vec<Carrier<T>>,
    slots: &[u32],
) -> Result<List<Outcome>, OutOfMemory>
    requires board { IsRunBoard (T.rules tasker.now) limits.now board.now }
    requires carriers { AreCarriers board.now tasker.now limits.now carriers.old.items }
    ensures { AreCarriers board.now tasker.now limits.now carriers.new.items }
{
    let mut outcomes = List::new(alloc);
    for slot in slots {
        if *slot < limits.slots {
            let advance = advance_slot(alloc, board, tasker, limits, carriers, *slot)?;
            let clock = carriers[*slot as usize].clock();
            outcomes.push(Outcome { advance, clock })?;
        }
    }
    Ok(outcomes)
}

/// What became of the turns of these slots, one after the other, and the history that the carriers leave then. None for
/// the history where one of them isn't over.
pub(crate) fn listed_history<T: Tasker>(
    alloc: Global,
    tasker: &T,
    limits: &Limits,
    slots: &[u32],
) -> Result<(List<Outcome>, Option<History>), OutOfMemory>
    requires { AreLimits limits.now }
{
    let (board, seats) = run_board(alloc, tasker, limits)?;
    let mut carriers = new_carriers(alloc, &board, tasker, limits, seats)?;
    let outcomes = listed_turns(alloc, &board, tasker, limits, &mut carriers, slots)?;
    if !all_ended(&carriers) {
        return Ok((outcomes, None));
    }
    let history = gather(alloc, &board, List::of(carriers))?;
    Ok((outcomes, Some(history)))
}
