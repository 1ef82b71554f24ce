ghost use Rattle.std.specs.Prelude.{◌≡◌, ◌≤◌, ◌*◌, ◌^◌, map, IfSome};
ghost use Rattle.std.specs.String.{string_bytes};
ghost use Rattle.xsearch_words.specs.Tunes.{IsTune, default_store as default_store_of, tune_in as tune_in_words, tune_of};

use crate::command::Key;
use crate::form::value;
use crate::number::number_or;
use crate::switch::switch_or;

/// The number of tasks where the words give none.
const DEFAULT_TASKS: u64 = 4;

/// The greatest number of tasks.
const MAX_TASKS: u64 = 64;

/// The limit on counted work where the words give none.
const DEFAULT_WORK: u64 = 200_000_000;

/// The greatest limit on counted work.
const MAX_WORK: u64 = 1_000_000_000_000;

/// The least store of a task, in words.
const MIN_STORE: u64 = 64;

/// The greatest store of all tasks together, in words.
const MAX_STORE: u64 = 4_194_304;

/// How a search is run: the number of tasks, for each its limit on counted work and its store in
/// words, and whether it derives cuts and whether it dives for points. There are 1 to 64 tasks, the
/// limit is at most 10^12, and a store is 64 words or more, for all tasks together at most 2^22.
#[derive(Clone, Copy, Debug, PartialEq, Eq)]
pub struct Tune {
    pub tasks: u32,
    pub work: u64,
    pub store: u32,
    pub cuts: bool,
    pub heuristics: bool,
}

impl Tune {
    /// So many tasks with this work and store for each, with cuts and dives or without, or None where
    /// their stores together are above the greatest store.
    fn of(tasks: u64, work: u64, store: u64, cuts: bool, heuristics: bool) -> Option<Tune>
        requires some { 1 ≤ tasks }
        requires few { tasks ≤ 64 }
        requires work { work ≤ 10 ^ 12 }
        requires some_store { 64 ≤ store }
        requires small_store { store ≤ 2 ^ 22 }
        ensures value { result ≡ tune_of tasks work store cuts heuristics }
        ensures kept { IfSome result IsTune }
    {
        if tasks * store > MAX_STORE {
            return None;
        }
        Some(Tune {
            tasks: tasks as u32,
            work,
            store: store as u32,
            cuts,
            heuristics,
        })
    }
}

/// How the words set a search to be run, or None where one of the values isn't lawful.
pub(crate) fn tune_in(words: &[String]) -> Option<Tune>
    ensures value { result ≡ tune_in_words (map string_bytes words.now) }
    ensures kept { IfSome result IsTune }
{
    let tasks = number_or(DEFAULT_TASKS, 1, MAX_TASKS, value(Key::Tasks, words))?;
    let work = number_or(DEFAULT_WORK, 0, MAX_WORK, value(Key::Work, words))?;
    let without = default_store(tasks);
    let store = number_or(without, MIN_STORE, MAX_STORE, value(Key::Store, words))?;
    let cuts = switch_or(true, value(Key::Cuts, words))?;
    let heuristics = switch_or(true, value(Key::Heuristics, words))?;
    Tune::of(tasks, work, store, cuts, heuristics)
}

/// The store of each task where the words give none, in words: the whole store in equal parts,
/// rounded down.
fn default_store(tasks: u64) -> u64
    requires some { 1 ≤ tasks }
    requires few { tasks ≤ 64 }
    ensures value { result ≡ default_store_of tasks }
    ensures some { 64 ≤ result }
    ensures small { result ≤ 2 ^ 22 }
{
    MAX_STORE / tasks
}
