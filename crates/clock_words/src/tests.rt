ghost use Rattle.std.specs.Prelude.{◌≡◌, ◌^◌, ◌≤◌, [], IfOk, slice_index};
ghost use Rattle.clock_words.specs.Places.{IsShape};
ghost use Rattle.clock_words.specs.Samples.{number_lists, run_lists};
ghost use Rattle.clock_words.specs.Seats.{IsSeat, new_seat};
ghost use Rattle.clock_words.specs.Stories.{AreWithin};

use super::*;
use ip_core::OutOfMemory;
use std::alloc::Global;
use std::test::Fail;
use std::thread;
use std::thread::Threads;

/// A story without words.
#[derive(Drop)]
struct NoWords;

impl Story for NoWords {
    ghost use Rattle.std.specs.Prelude.{[]};
    ghost use Rattle.clock_words.specs.Samples.{none_rise};

    ghost lists = { λ _. [] };

    ghost rising = { λ _. none_rise };
}

/// The story of a run of two slots, of which slot 0 does all.
#[derive(Drop)]
struct Run;

impl Story for Run {
    ghost use Rattle.clock_words.specs.Samples.{run_lists, runs_rise};

    ghost lists = { λ _. run_lists };

    ghost rising = { λ _. runs_rise };
}

/// A story of which slot 0 puts the numbers from 0 on, each at the clock of its value.
#[derive(Drop)]
struct Numbers;

impl Story for Numbers {
    ghost use Rattle.clock_words.specs.Samples.{number_lists, numbers_rise};

    ghost lists = { λ _. number_lists };

    ghost rising = { λ _. numbers_rise };
}

/// How many numbers there are.
const TURNS: u64 = 200;

/// A board of two slots with its seats.
fn two_seats<S: Story + Drop>(
    alloc: Global,
    story: S,
    area: u32,
) -> Result<(Board<S>, BoardSeat, BoardSeat), OutOfMemory>
    requires area { area ≤ 2 ^ 22 }
    requires within { AreWithin area (S.lists story) }
    ensures story { IfOk result (λ made. made.0.story ≡ S.lists story) }
    ensures shape { IfOk result (λ made. made.0.shape ≡ record { slots = 2; area = area }) }
    ensures seats { IfOk result (λ made.
        (made.1 ≡ new_seat made.0 0) × (made.2 ≡ new_seat made.0 1)) }
{
    let (board, seats) = Board::new(alloc, story, 2, area)?;
    let mut seats = seats.into_vec();
    let (Some(other), Some(one)) = (seats.pop(), seats.pop()) else {
        unreachable!()
    };
    Ok((board, one, other))
}

/// What seat 1 finds as the clock of slot 0, before and after seat 0 raises it to 5.
fn looks_around_a_raise(
    board: &Board<NoWords>,
    one: &mut BoardSeat,
    other: &mut BoardSeat,
) -> (u64, u64)
    requires shape { board.now.shape.slots ≡ 2 }
    requires one { one.old ≡ new_seat board.now 0 }
    requires other { other.old ≡ new_seat board.now 1 }
    requires story { board.now.story ≡ [] }
    ensures { slice_index other.new.looks 0 ≡ 2 }
{
    let before = board.look(other, 0);
    board.raise(one, 5);
    (before, board.look(other, 0))
}

#[test]
fn look_loads_the_clock_of_the_slot(rt: HostRuntime) -> Result<(), Fail> {
    let (board, mut one, mut other) = two_seats(rt.alloc(), NoWords, 64)?;
    assert_eq!(rt; looks_around_a_raise(&board, &mut one, &mut other), (0, 5));
    assert_eq!(rt; (one.slot(), other.slot()), (0, 1));
    Ok(())
}

#[test]
fn stop_is_seen_after_a_call(rt: HostRuntime) -> Result<(), Fail> {
    let (board, mut one, mut other) = two_seats(rt.alloc(), NoWords, 64)?;
    assert!(rt; !board.stop_seen(&mut other));
    board.call_stop(&mut one);
    assert!(rt; board.stop_seen(&mut other));
    assert!(rt; board.stop_seen(&mut other));
    Ok(())
}

/// Puts the words of the run's start with seat 0, and raises its clock to 14.
fn starts(board: &Board<Run>, seat: &mut BoardSeat)
    requires story { board.now.story ≡ run_lists }
    requires seat { IsSeat board.now seat.old }
    requires begins { (seat.old.slot ≡ 0) × (seat.old.own ≡ 0) × (seat.old.written ≡ 0) }
    ensures { IsSeat board.now seat.new }
{
    board.put(seat, &[4, 1, 0, 0]);
    board.raise(seat, 14);
}

/// Fetches four words of slot 0, if so many are due.
fn four_words(board: &Board<Run>, seat: &mut BoardSeat) -> [u64; 4]
    requires shape { board.now.shape.slots ≡ 2 }
    requires seat { IsSeat board.now seat.old }
{
    let mut words = [0; 4];
    if seat.due(0) == 4 {
        board.fetch(seat, 0, 0, &mut words);
    }
    words
}

#[test]
fn fetch_gives_what_was_put(rt: HostRuntime) -> Result<(), Fail> {
    let (board, mut one, mut other) = two_seats(rt.alloc(), Run, 64)?;
    starts(&board, &mut one);
    assert_eq!(rt; other.due(0), 0);
    assert_eq!(rt; board.look(&mut other, 0), 14);
    assert_eq!(rt; four_words(&board, &mut other), [4, 1, 0, 0]);
    Ok(())
}

#[test]
fn join_keeps_what_was_seen(rt: HostRuntime) -> Result<(), Fail> {
    let (board, mut one, mut other) = two_seats(rt.alloc(), Run, 64)?;
    starts(&board, &mut one);
    board.look(&mut other, 0);
    board.join(&mut one, other);
    assert_eq!(rt; four_words(&board, &mut one), [4, 1, 0, 0]);
    Ok(())
}

/// Puts all numbers with seat 0, each at its clock, and ends the slot.
fn puts_all(board: &Board<Numbers>, mut seat: BoardSeat)
    requires story { board.now.story ≡ number_lists }
    requires seat { IsSeat board.now seat }
    requires begins { (seat.slot ≡ 0) × (seat.own ≡ 0) × (seat.written ≡ 0) }
{
    for turn in 0..TURNS {
        board.put(&mut seat, &[turn]);
        board.raise(&mut seat, turn + 1);
    }
    board.raise(&mut seat, END_STAMP);
}

/// Fetches all that is due of slot 0 until it has ended, and says whether each time there were the
/// first numbers, and all of them at the end.
fn sees_fronts(board: &Board<Numbers>, mut seat: BoardSeat) -> bool
    requires story { board.now.story ≡ number_lists }
    requires shape { board.now.shape.slots ≡ 2 }
    requires seat { IsSeat board.now seat }
{
    let mut words = [0; TURNS as usize];
    for _ in 0..u64::MAX {
        let clock = board.look(&mut seat, 0);
        let due = seat.due(0) as usize;
        let front = &mut words[..due];
        board.fetch(&mut seat, 0, 0, front);
        if !is_front(front) {
            return false;
        }
        if clock == END_STAMP {
            return due as u64 == TURNS;
        }
        thread::yield_now();
    }
    false
}

/// Whether these are the numbers from 0 on.
fn is_front(words: &[u64]) -> bool {
    for k in 0..words.len() {
        if words[k] != k as u64 {
            return false;
        }
    }
    true
}

/// One thread puts the numbers, and another looks for them.
fn sees_fronts_beside<R: Threads + Sync>(
    rt: &R,
    board: &Board<Numbers>,
    one: BoardSeat,
    other: BoardSeat,
) -> bool
    requires story { board.now.story ≡ number_lists }
    requires shape { board.now.shape.slots ≡ 2 }
    requires one { one ≡ new_seat board.now 0 }
    requires other { other ≡ new_seat board.now 1 }
{
    let ((), fronts) = thread::join(
        rt,
        move ||
            requires { (board.now.story ≡ number_lists) × (board.now.shape.slots ≡ 2) ×
                (one ≡ new_seat board.now 0) }
        { puts_all(board, one) },
        move || -> bool
            requires { (board.now.story ≡ number_lists) × (board.now.shape.slots ≡ 2) ×
                (other ≡ new_seat board.now 1) }
        { sees_fronts(board, other) },
    );
    fronts
}

#[test]
fn two_threads_see_fronts(rt: HostRuntime) -> Result<(), Fail> {
    let (board, one, other) = two_seats(rt.alloc(), Numbers, 256)?;
    assert!(rt; sees_fronts_beside(&rt, &board, one, other));
    Ok(())
}
